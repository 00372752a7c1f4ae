// Selection sets, lists and objects call one another; the path room falls at each field and item.
ghost use Rattle.resolving.specs.Sound.{request_of};
ghost use Rattle.execution.specs.Walk.{SetReady, FieldReady, StepReady, ItemsReady, ObjectReady, SetDone, ObjectDone, FieldDone, StepDone, ItemsDone};
ghost use Rattle.tables.specs.Tables.{lent};

use crate::ends::{done_apart, list_done, object_done, planned_to};
use ordering::order::{clear_spans, next_group, past_choice, put_in_place};
use planning::layout::{SMALL_WORDS, definition, first_field, group_count};
use planning::plan::{plan_apart, plan_for};
use resolving::field::{Container, Step, complete_item, execute_field};
use resolving::resolve::Asked;
use rows::layout::Range;
use rows::tables::Tables;
use walking::path::{Path, below};
use walking::settle::{moved, past_list, placed, stopped};
use walking::state::{Done, Kind, State};
use writing::place::close;

// The groups of a set have their spans so many words behind those of the set around it.
pub const SPANS: usize = 128;

// The items of a list, each as far as it goes.
#[cycle(complete_items_enter_field_execute_apart_execute_object_execute_selection_set_go_on)]
fn complete_items(
    tables: &Tables,
    choices: &[u32],
    text: &mut [u8],
    errors: &mut [u32],
    plans: &mut [u16],
    spans: &mut [u64],
    hints: &mut [u32],
    path: Path,
    plan: usize,
    group: usize,
    asked: Asked,
    inner: u32,
    rows: Range,
    s: State,
) -> Done
    requires { ItemsReady (request_of (lent tables.now)) plans.old spans.old hints.old path s plan group asked rows }
    ensures { ItemsDone (request_of (lent tables.now)) choices.now text.old errors.old plans.old spans.old hints.old path s plan group asked inner rows result text.new errors.new plans.new spans.new hints.new }
{
    let first = rows.first;
    let count = rows.count;
    let start = s.at;
    let mut state = s;
    for i in 0..count {
        let step = complete_item(
            tables,
            text,
            errors,
            path,
            i,
            asked,
            inner,
            first + i,
            state,
        );
        let d = go_on(
            tables, choices, text, errors, plans, spans, hints, path, plan, group, step, state,
        );
        state = d.state;
        let what = d.what;
        let Ok(_) = what else {
            return Done {
                what: what,
                state: moved(state, start),
            };
        };
    }
    let end = close(text, start, state.at, b'[', b']');
    placed(state, end, Kind::List)
}

// An object whose plan found no room has a store to itself, as long as it takes.
#[cycle(complete_items_enter_field_execute_apart_execute_object_execute_selection_set_go_on)]
fn execute_apart(
    tables: &Tables,
    choices: &[u32],
    text: &mut [u8],
    errors: &mut [u32],
    plans: &[u16],
    spans: &mut [u64],
    hints: &mut [u32],
    path: Path,
    plan: usize,
    group: usize,
    object: u32,
    rows: Range,
    s: State,
) -> Done
    requires { ObjectReady (request_of (lent tables.now)) plans.now spans.old hints.old path s plan group object rows }
    ensures { ObjectDone (request_of (lent tables.now)) choices.now text.old errors.old plans.now spans.old hints.old path s plan group object rows result text.new errors.new plans.now spans.new hints.new }
{
    let mut store = [0u16; SMALL_WORDS];
    let own = match plan_apart(tables, plans, &mut store, plan, group, object) {
        Ok(own) => own,
        Err(outcome) => {
            return stopped(s, outcome.code());
        }
    };
    let d = execute_selection_set(
        tables,
        choices,
        text,
        errors,
        &mut store,
        spans,
        hints,
        path,
        own.plan,
        object,
        rows,
        planned_to(s, own.top),
    );
    done_apart(d, s.top)
}

// The set of an object answer: ExecuteSelectionSet of what is beneath a group, by its plan.
#[cycle(complete_items_enter_field_execute_apart_execute_object_execute_selection_set_go_on)]
fn execute_object(
    tables: &Tables,
    choices: &[u32],
    text: &mut [u8],
    errors: &mut [u32],
    plans: &mut [u16],
    spans: &mut [u64],
    hints: &mut [u32],
    path: Path,
    plan: usize,
    group: usize,
    object: u32,
    rows: Range,
    s: State,
) -> Done
    requires { ObjectReady (request_of (lent tables.now)) plans.old spans.old hints.old path s plan group object rows }
    ensures { ObjectDone (request_of (lent tables.now)) choices.now text.old errors.old plans.old spans.old hints.old path s plan group object rows result text.new errors.new plans.new spans.new hints.new }
{
    let planned = match plan_for(tables, plans, hints, s.top, plan, group, object) {
        Ok(planned) => planned,
        Err(outcome) => {
            return stopped(s, outcome.code());
        }
    };
    match planned {
        None => execute_apart(
            tables, choices, text, errors, plans, spans, hints, path, plan, group, object, rows, s,
        ),
        Some(own) => execute_selection_set(
            tables,
            choices,
            text,
            errors,
            plans,
            spans,
            hints,
            path,
            own.plan,
            object,
            rows,
            planned_to(s, own.top),
        ),
    }
}

// A field or an item that is a list or an object is completed; another is done.
#[cycle(complete_items_enter_field_execute_apart_execute_object_execute_selection_set_go_on)]
fn go_on(
    tables: &Tables,
    choices: &[u32],
    text: &mut [u8],
    errors: &mut [u32],
    plans: &mut [u16],
    spans: &mut [u64],
    hints: &mut [u32],
    path: Path,
    plan: usize,
    group: usize,
    step: Step,
    s: State,
) -> Done
    requires { StepReady (request_of (lent tables.now)) plans.old spans.old hints.old path s plan group step }
    ensures { StepDone (request_of (lent tables.now)) choices.now text.old errors.old plans.old spans.old hints.old path s plan group step result text.new errors.new plans.new spans.new hints.new }
{
    let deeper = match step {
        Step::Finished(d) => {
            return d;
        }
        Step::Deeper(deeper) => deeper,
    };
    let down = below(path, deeper.last);
    let container = deeper.container;
    match container {
        Container::List {
            inner,
            nullable,
            rows,
        } => {
            let d = complete_items(
                tables,
                choices,
                text,
                errors,
                plans,
                spans,
                hints,
                down,
                plan,
                group,
                deeper.asked,
                inner,
                rows,
                deeper.state,
            );
            list_done(text, nullable, deeper.non_null, s.at, d)
        }
        Container::Object { object, rows } => {
            let d = execute_object(
                tables,
                choices,
                text,
                errors,
                plans,
                spans,
                hints,
                down,
                plan,
                group,
                object,
                rows,
                deeper.state,
            );
            object_done(text, deeper.non_null, s.at, d)
        }
    }
}

// The field of a group, with its comma and its key.
#[cycle(complete_items_enter_field_execute_apart_execute_object_execute_selection_set_go_on)]
fn enter_field(
    tables: &Tables,
    choices: &[u32],
    text: &mut [u8],
    errors: &mut [u32],
    plans: &mut [u16],
    spans: &mut [u64],
    hints: &mut [u32],
    path: Path,
    plan: usize,
    group: usize,
    object: u32,
    rows: Range,
    s: State,
) -> Done
    requires { FieldReady (request_of (lent tables.now)) plans.old spans.old hints.old path s plan group object rows }
    ensures { FieldDone (request_of (lent tables.now)) choices.now text.old errors.old plans.old spans.old hints.old path s plan group object rows result text.new errors.new plans.new spans.new hints.new }
{
    let step = execute_field(
        tables,
        text,
        errors,
        path,
        definition(plans, plan, group),
        first_field(plans, plan, group),
        object,
        rows,
        s,
    );
    go_on(
        tables, choices, text, errors, plans, spans, hints, path, plan, group, step, s,
    )
}

// ExecuteSelectionSet: the groups of a plan, in the order that the choices say. Each entry goes to its place among those that there are.
#[cycle(complete_items_enter_field_execute_apart_execute_object_execute_selection_set_go_on)]
pub fn execute_selection_set(
    tables: &Tables,
    choices: &[u32],
    text: &mut [u8],
    errors: &mut [u32],
    plans: &mut [u16],
    spans: &mut [u64],
    hints: &mut [u32],
    path: Path,
    plan: usize,
    object: u32,
    rows: Range,
    s: State,
) -> Done
    requires { SetReady (request_of (lent tables.now)) plans.old spans.old hints.old path s plan object rows }
    ensures { SetDone (request_of (lent tables.now)) choices.now text.old errors.old plans.old spans.old hints.old path s plan object rows result text.new errors.new plans.new spans.new hints.new }
{
    let groups = group_count(plans, plan);
    let base = SPANS * path.count;
    clear_spans(spans, base, groups);
    let start = s.at;
    let mut state = s;
    let mut low: usize = 0;
    for taken in 0..groups {
        let group = next_group(spans, choices, base, groups, low, taken, state.choice);
        let next = State {
            at: state.at,
            errs: state.errs,
            choice: past_choice(choices, state.choice),
            top: state.top,
        };
        let d = enter_field(
            tables, choices, text, errors, plans, spans, hints, path, plan, group, object, rows,
            next,
        );
        state = d.state;
        let what = d.what;
        let Ok(_) = what else {
            return past_list(Done {
                what: what,
                state: moved(state, start),
            });
        };
        low = put_in_place(
            text, spans, base, group, low, taken, start, next.at, state.at,
        );
    }
    let end = close(text, start, state.at, b'{', b'}');
    placed(state, end, Kind::Object)
}
