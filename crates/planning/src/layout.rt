// A plan stands in rows of eight words of a lent array: a head, a row for each group and, where some group has more than one field, a row for each
// field. What stands is never changed.
ghost use Rattle.std.specs.Prelude.{◌≡◌, ◌+◌, ◌*◌, ◌≤◌, ◌<◌, length};
ghost use Rattle.planning.specs.Plans.{word_at, group_count, field_count, first_of, most_words};

pub const WIDTH: usize = 8;

// A head, 127 groups and 128 fields.
pub const MOST_PLAN_ROWS: usize = 256;

// The store that all sets of a run share, and one for a single set.
pub const STORE_WORDS: usize = 8192;

pub const SMALL_WORDS: usize = 2048;

// The columns of a head: 32768 and the object type, how many groups and fields there are, and the plan and the group that it was made for.
pub const HEAD: u16 = 32768;

pub const HEAD_TYPE: usize = 0;

pub const HEAD_GROUPS: usize = 1;

pub const HEAD_FIELDS: usize = 2;

pub const HEAD_PLAN: usize = 3;

pub const HEAD_GROUP: usize = 4;

// The columns of a group: its first field, a selection; its definition; the field's name and its response key; and what is expected, where
// the field needs no care.
pub const GROUP_FIRST: usize = 0;

pub const GROUP_DEFINITION: usize = 1;

pub const GROUP_NAME: usize = 2;

pub const GROUP_KEY: usize = 3;

pub const GROUP_EXPECTED: usize = 4;

pub const GROUP_TYPE: usize = 5;

// The columns of a field: the selection, and the group that it belongs to.
pub const FIELD_SELECTION: usize = 0;

pub const FIELD_GROUP: usize = 1;

// A group's definition: none, `__typename`, or 2 and a row of the fields. It stays the word that stands in the group's row, which is fixed memory:
// it goes from there to the one place that asks which of the three it is, and an enum would have to be told from it by the same tests first.
pub const UNDEFINED: u16 = 0;

pub const TYPENAME: u16 = 1;

pub const DEFINED: u16 = 2;

pub fn word(plans: &[u16], row: usize, column: usize) -> u16
    requires { 8 * row + column < length plans.now }
    ensures { result ≡ word_at plans.now row column }
{
    plans[WIDTH * row + column]
}

pub fn group_count(plans: &[u16], plan: usize) -> usize
    requires { 8 * plan + 1 < length plans.now }
    ensures { result ≡ group_count plans.now plan }
{
    word(plans, plan, HEAD_GROUPS) as usize
}

pub fn field_count(plans: &[u16], plan: usize) -> usize
    requires { 8 * plan + 2 < length plans.now }
    ensures { result ≡ field_count plans.now plan }
{
    word(plans, plan, HEAD_FIELDS) as usize
}

pub fn group_row(plan: usize, group: usize) -> usize
    requires { plan + 1 + group ≤ 2 * most_words }
    ensures { result ≡ plan + 1 + group }
{
    plan + 1 + group
}

// The first field of a group, a selection.
pub fn first_field(plans: &[u16], plan: usize, group: usize) -> u32
    requires { (length plans.now ≤ most_words) × (8 * (plan + 1 + group) < length plans.now) }
    ensures { result ≡ first_of plans.now (plan + 1 + group) }
{
    word(plans, group_row(plan, group), GROUP_FIRST) as u32
}

pub fn definition(plans: &[u16], plan: usize, group: usize) -> u16
    requires { (length plans.now ≤ most_words) × (8 * (plan + 1 + group) + 1 < length plans.now) }
    ensures { result ≡ word_at plans.now (plan + 1 + group) 1 }
{
    word(plans, group_row(plan, group), GROUP_DEFINITION)
}
