// The depth check: how deep an operation nests the lists that a schema can loop through.
ghost use Rattle.std.specs.Prelude.{◌≡◌, ◌&&◌, [], leb, replicate};
ghost use Rattle.std.specs.Prelude.{None};
ghost use Rattle.tables.specs.Tables.{lent};
ghost use Rattle.rows.specs.Names.{'fields, 'inputFields};
ghost use Rattle.graphql.specs.Depth.{check_set, answered, depth_report};
ghost use Rattle.codes.specs.Outcome.{code_of};
ghost use Rattle.introspection.specs.MaxDepth.{Answers, meant, Walkable, ChecksSet, ChecksSelection, ChecksField, ChecksChild, ChecksSpread};

use codes::outcome::Outcome;
use lookup::named::fragment_named;
use rows::document::{FieldSelection, Selected, fragment_at, selection_at, set_at};
use rows::tables::Tables;
use tables::check::{LAWFUL, table_check};

const MAX_LISTS_DEPTH: u32 = 3;

// "33 open sets in a depth check" is too far.
const MAX_OPEN_SETS: u32 = 32;

// The names `fields`, `interfaces`, `possibleTypes` and `inputFields`.
const FIRST_LIST: u32 = 8;

const LAST_LIST: u32 = 11;

// A depth check's code; the depth where it is 0, and the place where it is 8. The three numbers stay numbers: the C function `ladlehedge_depth_check`
// hands them back as they are.
#[derive(Clone, Copy)]
pub struct DepthAnswer {
    pub code: u32,
    pub depth: u32,
    pub place: u32,
}

// Why a selection or a set has no depth: a 33rd set would be open, or it is too deep at a place.
#[derive(Clone, Copy, PartialEq, Eq, Debug)]
pub enum Unmeasured {
    TooManySets,
    TooDeep(u32),
}

fn is_list(name: u32) -> bool
    ensures { result ≡ (leb 'fields name && leb name 'inputFields) }
{
    (FIRST_LIST..=LAST_LIST).contains(&name)
}

// `room` is how many sets may still be opened. `rises` has for each fragment that was met how far it raises the depth.
#[cycle(check_child_set_check_field_check_selection_check_selection_set_check_spread)]
fn check_selection_set(
    tables: &Tables,
    rises: &mut [Option<u32>],
    room: u32,
    set: u32,
    depth_so_far: u32,
) -> Result<u32, Unmeasured>
    requires { let t = lent tables.now in Walkable t.sets t.fragments rises.old depth_so_far }
    ensures { let t = lent tables.now in ChecksSet t.sets t.selections t.fragments rises.old room set depth_so_far result rises.new }
{
    if room == 0 {
        return Err(Unmeasured::TooManySets);
    }
    let range = set_at(tables.sets, set);
    let first = range.first;
    let count = range.count;
    let mut max_depth = depth_so_far;
    for i in 0..count {
        let depth = check_selection(tables, rises, room - 1, first + i, depth_so_far)?;
        max_depth = max_depth.max(depth);
    }
    Ok(max_depth)
}

#[cycle(check_child_set_check_field_check_selection_check_selection_set_check_spread)]
fn check_selection(
    tables: &Tables,
    rises: &mut [Option<u32>],
    room: u32,
    row: u32,
    depth_so_far: u32,
) -> Result<u32, Unmeasured>
    requires { let t = lent tables.now in Walkable t.sets t.fragments rises.old depth_so_far }
    ensures { let t = lent tables.now in ChecksSelection t.sets t.selections t.fragments rises.old room row depth_so_far result rises.new }
{
    let selection = selection_at(tables.selections, row);
    let place = selection.place;
    let what = selection.what;
    match what {
        Selected::Field(field) => check_field(tables, rises, room, place, field, depth_so_far),
        Selected::Spread { name } => check_spread(tables, rises, room, place, name, depth_so_far),
        Selected::Inline { condition: _, set } => check_selection_set(
            tables,
            rises,
            room,
            set,
            depth_so_far,
        ),
        Selected::Unknown => Ok(depth_so_far),
    }
}

#[cycle(check_child_set_check_field_check_selection_check_selection_set_check_spread)]
fn check_field(
    tables: &Tables,
    rises: &mut [Option<u32>],
    room: u32,
    place: u32,
    field: FieldSelection,
    depth_so_far: u32,
) -> Result<u32, Unmeasured>
    requires { let t = lent tables.now in Walkable t.sets t.fragments rises.old depth_so_far }
    ensures { let t = lent tables.now in ChecksField t.sets t.selections t.fragments rises.old room place field depth_so_far result rises.new }
{
    if !is_list(field.name) {
        return check_child_set(tables, rises, room, field, depth_so_far);
    }
    let depth = depth_so_far + 1;
    if depth >= MAX_LISTS_DEPTH {
        return Err(Unmeasured::TooDeep(place));
    }
    check_child_set(tables, rises, room, field, depth)
}

// The set of a field, at the depth within it; a field that has none opens none.
#[cycle(check_child_set_check_field_check_selection_check_selection_set_check_spread)]
fn check_child_set(
    tables: &Tables,
    rises: &mut [Option<u32>],
    room: u32,
    field: FieldSelection,
    depth: u32,
) -> Result<u32, Unmeasured>
    requires { let t = lent tables.now in Walkable t.sets t.fragments rises.old depth }
    ensures { let t = lent tables.now in ChecksChild t.sets t.selections t.fragments rises.old room field depth result rises.new }
{
    let set = field.set;
    if set == 0 {
        return Ok(depth);
    }
    check_selection_set(tables, rises, room, set, depth)
}

#[cycle(check_child_set_check_field_check_selection_check_selection_set_check_spread)]
fn check_spread(
    tables: &Tables,
    rises: &mut [Option<u32>],
    room: u32,
    place: u32,
    name: u32,
    depth_so_far: u32,
) -> Result<u32, Unmeasured>
    requires { let t = lent tables.now in Walkable t.sets t.fragments rises.old depth_so_far }
    ensures { let t = lent tables.now in ChecksSpread t.sets t.selections t.fragments rises.old room place name depth_so_far result rises.new }
{
    let found = fragment_named(tables.fragments, name);
    let Some(row) = found else {
        return Ok(depth_so_far);
    };
    let at = row as usize;
    let met = rises[at];
    if let Some(rise) = met {
        // depth_so_far + rise > MAX_LISTS_DEPTH, by a difference, which cannot wrap
        if rise > MAX_LISTS_DEPTH - depth_so_far {
            return Err(Unmeasured::TooDeep(place));
        }
        return Ok(depth_so_far);
    }
    let fragment = fragment_at(tables.fragments, row);
    let set = fragment.set;
    let depth = check_selection_set(tables, rises, room, set, depth_so_far)?;
    rises[at] = Some(depth.saturating_sub(depth_so_far));
    Ok(depth)
}

fn answered_by(outcome: Outcome, depth: u32, place: u32) -> DepthAnswer
    ensures { result ≡ record { code = code_of outcome; depth = depth; place = place } }
{
    DepthAnswer {
        code: outcome.code(),
        depth,
        place,
    }
}

// "A depth check that doesn't answer 8 gives place 0, and depth 0 unless its code is 0."
fn answer(checked: Result<u32, Unmeasured>) -> DepthAnswer
    ensures { Answers result (answered (meant checked)) }
{
    match checked {
        Err(Unmeasured::TooManySets) => answered_by(Outcome::TooFar, 0, 0),
        Err(Unmeasured::TooDeep(place)) => answered_by(Outcome::TooDeep, 0, place),
        Ok(depth) => answered_by(Outcome::Answered, depth, 0),
    }
}

// The depth of lawful tables' sets, from the operation's on.
fn depth_of_operation(tables: &Tables) -> DepthAnswer
    requires { let t = lent tables.now in Walkable t.sets t.fragments (replicate 64 None) 0 }
    ensures { let t = lent tables.now in Answers result (answered (check_set t.sets t.selections t.fragments 32 0 0 [])) }
{
    let mut rises = [None; 64];
    answer(check_selection_set(tables, &mut rises, MAX_OPEN_SETS, 0, 0))
}

pub fn depth_check(tables: &Tables) -> DepthAnswer
    ensures { Answers result (depth_report (lent tables.now)) }
{
    let lawful = table_check(tables);
    if lawful != LAWFUL {
        return answered_by(Outcome::Unlawful, 0, 0);
    }
    depth_of_operation(tables)
}
