// The plan for a group and an object type: found again, or made.
ghost use Rattle.std.specs.Prelude.{◌≡◌, ◌&&◌, ◌+◌, ◌*◌, ◌%◌, ◌≤◌, ◌<◌, eqb, ltb, length, IfErr};
ghost use Rattle.rows.specs.Limits.{most_types};
ghost use Rattle.collecting.specs.Collecting.{StopsCollecting};
ghost use Rattle.planning.specs.Plans.{word_at, most_words, PutHead, Puttable, PutPlan, Lookable, PlansFor, Plannable, Storable, operation_of, beneath_group, PlansAlone, roomy};
ghost use Rattle.tables.specs.Tables.{lent};

use crate::beneath::{collect_group, collect_operation};
use crate::groups::{put_fields, put_groups};
use crate::layout::{
    HEAD, HEAD_FIELDS, HEAD_GROUP, HEAD_GROUPS, HEAD_PLAN, HEAD_TYPE, MOST_PLAN_ROWS, WIDTH, word,
};
use codes::outcome::Outcome;
use collecting::collect::MOST_COLLECTED;
use rows::tables::Tables;

// The row of a plan, and how many rows stand.
#[derive(Clone, Copy)]
pub struct Plan {
    pub plan: usize,
    pub top: usize,
}

fn put_head(
    plans: &mut [u16],
    at: usize,
    by: u16,
    groups: usize,
    count: usize,
    plan: usize,
    group: usize,
)
    requires { (8 * at + 8 ≤ length plans.old) × (groups < most_words) × (count < most_words) × (plan < most_words) × (group < most_words) }
    ensures { PutHead at by groups count plan group plans.old plans.new }
{
    plans[WIDTH * at + HEAD_TYPE] = by;
    plans[WIDTH * at + HEAD_GROUPS] = groups as u16;
    plans[WIDTH * at + HEAD_FIELDS] = count as u16;
    plans[WIDTH * at + HEAD_PLAN] = plan as u16;
    plans[WIDTH * at + HEAD_GROUP] = group as u16;
}

// A plan of the fields in the list, put at the row `at`; `by` is the first word of its head.
fn put_plan(
    tables: &Tables,
    plans: &mut [u16],
    list: &[u16],
    count: usize,
    at: usize,
    by: u16,
    plan: usize,
    group: usize,
    object: u32,
) -> Plan
    requires { let t = lent tables.now in Puttable t.refs t.types t.fields t.selections list.now count at plan group plans.old }
    ensures { let t = lent tables.now in PutPlan t.refs t.types t.fields t.selections list.now count at by plan group object plans.old result plans.new }
{
    let mut owners = [0u16; MOST_COLLECTED];
    let first = at + 1;
    let groups = put_groups(tables, plans, list, &mut owners, first, count, object);
    put_head(plans, at, by, groups, count, plan, group);
    if groups == count {
        return Plan {
            plan: at,
            top: first + groups,
        };
    }
    put_fields(plans, list, &owners, first + groups, count);
    Plan {
        plan: at,
        top: first + groups + count,
    }
}

// The plan of a set by itself, at the beginning of a store: the operation's, or one that found no room.
fn plan_set(tables: &Tables, plans: &mut [u16], list: &[u16], count: usize, object: u32) -> Plan
    requires { let t = lent tables.now in Puttable t.refs t.types t.fields t.selections list.now count 0 0 0 plans.old }
    ensures { let t = lent tables.now in PutPlan t.refs t.types t.fields t.selections list.now count 0 0 0 0 object plans.old result plans.new }
{
    put_plan(tables, plans, list, count, 0, 0, 0, 0, object)
}

// Where to look for the plan of a group and a type; any place would do.
pub fn hint_at(plan: usize, group: usize, object: u32) -> usize
    requires { (plan < most_words) × (group < most_words) }
    ensures { (result ≡ (plan + group + object * 61) % 1024) × (result < 1024) }
{
    (plan + group + (object as usize) * 61) % 1024
}

// Whether a row is the head of the plan for a group and a type.
pub fn is_plan_for(
    plans: &[u16],
    top: usize,
    row: usize,
    plan: usize,
    group: usize,
    object: u32,
) -> bool
    requires { (8 * top ≤ length plans.now) × (object < most_types) }
    ensures { result ≡ (ltb row top && (eqb (word_at plans.now row 0) (32768 + object) && (eqb (word_at plans.now row 3) plan && eqb (word_at plans.now row 4) group))) }
{
    if row < top {
        let type_too = word(plans, row, HEAD_TYPE) == HEAD + (object as u16);
        let plan_too = (word(plans, row, HEAD_PLAN) as usize) == plan;
        let group_too = (word(plans, row, HEAD_GROUP) as usize) == group;
        return type_too & (plan_too & group_too);
    }
    false
}

// Behind all plans that stand; or why collecting stops.
fn make_plan(
    tables: &Tables,
    plans: &mut [u16],
    top: usize,
    plan: usize,
    group: usize,
    object: u32,
) -> Result<Plan, Outcome>
    requires { let t = lent tables.now in Plannable t.refs t.types t.fields t.sets t.selections t.fragments plans.old top plan group object × (8 * (top + 256) ≤ length plans.old) }
    ensures planned { let t = lent tables.now in PlansFor t.refs t.types t.members t.fields t.sets t.selections t.fragments t.nodes t.variables plans.old top plan group object (roomy result) plans.new }
    ensures refusal { IfErr result StopsCollecting }
{
    let mut list = [0u16; MOST_COLLECTED];
    let gathered = collect_group(tables, plans, &mut list, object, plan, group)?;
    let by = HEAD + (object as u16);
    let count = gathered.count;
    Ok(put_plan(tables, plans, &list, count, top, by, plan, group, object))
}

// The plan for a group of a plan and an object type: the one that stands, or a new one behind all that stand; none where there is no room for
// it.
pub fn plan_for(
    tables: &Tables,
    plans: &mut [u16],
    hints: &mut [u32],
    top: usize,
    plan: usize,
    group: usize,
    object: u32,
) -> Result<Option<Plan>, Outcome>
    requires { let t = lent tables.now in Plannable t.refs t.types t.fields t.sets t.selections t.fragments plans.old top plan group object × (length hints.old ≡ 1024) }
    ensures planned { let t = lent tables.now in PlansFor t.refs t.types t.members t.fields t.sets t.selections t.fragments t.nodes t.variables plans.old top plan group object result plans.new }
    ensures refusal { IfErr result StopsCollecting }
{
    let slot = hint_at(plan, group, object);
    let hint = hints[slot] as usize;
    if is_plan_for(plans, top, hint, plan, group, object) {
        return Ok(Some(Plan {
            plan: hint,
            top: top,
        }));
    }
    if plans.len() < WIDTH * (top + MOST_PLAN_ROWS) {
        return Ok(None);
    }
    let made = make_plan(tables, plans, top, plan, group, object)?;
    hints[slot] = made.plan as u32;
    Ok(Some(made))
}

// The plan of the operation's own set, at the beginning of a store.
pub fn plan_operation(tables: &Tables, store: &mut [u16], object: u32) -> Result<Plan, Outcome>
    requires { let t = lent tables.now in Storable t.refs t.types t.fields t.sets t.selections t.fragments store.old object }
    ensures planned { let t = lent tables.now in PlansAlone t.refs t.types t.members t.fields t.sets t.selections t.fragments t.nodes t.variables operation_of object store.old result store.new }
    ensures refusal { IfErr result StopsCollecting }
{
    let mut list = [0u16; MOST_COLLECTED];
    let gathered = collect_operation(tables, &mut list, object)?;
    Ok(plan_set(tables, store, &list, gathered.count, object))
}

// The plan for a group of a plan and an object type, at the beginning of a store of its own.
pub fn plan_apart(
    tables: &Tables,
    plans: &[u16],
    store: &mut [u16],
    plan: usize,
    group: usize,
    object: u32,
) -> Result<Plan, Outcome>
    requires { let t = lent tables.now in Storable t.refs t.types t.fields t.sets t.selections t.fragments store.old object × Lookable plans.now plan group }
    ensures planned { let t = lent tables.now in PlansAlone t.refs t.types t.members t.fields t.sets t.selections t.fragments t.nodes t.variables (beneath_group plans.now plan group) object store.old result store.new }
    ensures refusal { IfErr result StopsCollecting }
{
    let mut list = [0u16; MOST_COLLECTED];
    let gathered = collect_group(tables, plans, &mut list, object, plan, group)?;
    Ok(plan_set(tables, store, &list, gathered.count, object))
}
