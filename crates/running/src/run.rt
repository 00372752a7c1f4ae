// The two runs: in document order, and in a given order.
ghost use Rattle.std.specs.Prelude.{◌≡◌, true, length};
ghost use Rattle.tables.specs.Tables.{lent};
ghost use Rattle.tables.specs.Lawful.{lawful};
ghost use Rattle.rows.specs.Answers.{answer_at};
ghost use Rattle.graphql.specs.Complete.{rows_of_object, execute};
ghost use Rattle.graphql.specs.Report.{report, report_in_order, Reports};
ghost use Rattle.walking.specs.Gives.{as_data, Gives};
ghost use Rattle.running.specs.Running.{refusal_of, at_start};

use crate::introspect::introspects;
use crate::report::{refuse, report_end};
use codes::outcome::Outcome;
use codes::report::Reported;
use execution::ends::planned_to;
use execution::execution::execute_selection_set;
use planning::layout::STORE_WORDS;
use planning::plan::plan_operation;
use rows::answers::{Answer, answer_at};
use rows::layout::Range;
use rows::tables::Tables;
use tables::check::{LAWFUL, buffers_are_lawful, choices_are_lawful, table_check};
use walking::path::root_path;
use walking::settle::stopped;
use walking::state::{Done, State};

// The groups of each of 33 sets, one around the other, have 128 spans.
const SPAN_WORDS: usize = 4224;

const HINTS: usize = 1024;

// "1 before 2 before the walk": why a run is refused without a walk, if it is.
fn refusal(tables: &Tables, choices: usize, text: usize, errors: usize) -> Option<Outcome>
    ensures { result ≡ refusal_of (lent tables.now) choices text errors }
{
    if table_check(tables) != LAWFUL {
        return Some(Outcome::Unlawful);
    }
    if !(buffers_are_lawful(text, errors) & choices_are_lawful(choices)) {
        return Some(Outcome::Unlawful);
    }
    if introspects(tables.selections) {
        return Some(Outcome::AsksForSchema);
    }
    None
}

// The rows that answer the fields of the root.
fn root_rows(answers: &[u32]) -> Range
    ensures { result ≡ rows_of_object (answer_at answers.now 0) }
{
    let root = answer_at(answers, 0);
    if let Answer::Object { ty: _, fields } = root {
        return fields;
    }
    Range { first: 0, count: 0 }
}

// How a run stands before its first field.
const START: State = State {
    at: 0,
    errs: 0,
    choice: 0,
    top: 0,
};

// The walk of lawful tables, from nothing written.
fn execute_operation(tables: &Tables, choices: &[u32], text: &mut [u8], errors: &mut [u32]) -> Done
    requires { lawful (lent tables.now) ≡ true }
    ensures { Gives as_data choices.now text.old errors.old at_start (execute (record { tables = lent tables.now }) choices.now) result text.new errors.new }
{
    let mut plans = [0u16; STORE_WORDS];
    let mut spans = [0u64; SPAN_WORDS];
    let mut hints = [0u32; HINTS];
    let own = match plan_operation(tables, &mut plans, tables.root) {
        Ok(own) => own,
        Err(outcome) => {
            return stopped(START, outcome.code());
        }
    };
    execute_selection_set(
        tables,
        choices,
        text,
        errors,
        &mut plans,
        &mut spans,
        &mut hints,
        root_path(),
        own.plan,
        tables.root,
        root_rows(tables.answers),
        planned_to(START, own.top),
    )
}

// A run in a given order: the choices say which group of a set comes next.
pub fn run_ordered(
    tables: &Tables,
    choices: &[u32],
    text: &mut [u8],
    errors: &mut [u32],
) -> Reported
    ensures { Reports (length text.old) (length errors.old) (report (record { tables = lent tables.now }) (length text.old) (length errors.old) choices.now) result text.new errors.new }
{
    let refused = refusal(tables, choices.len(), text.len(), errors.len());
    if let Some(outcome) = refused {
        return refuse(text, errors, outcome.code());
    }
    let d = execute_operation(tables, choices, text, errors);
    report_end(text, errors, d)
}

// A run in document order: with no choices each set takes its groups as they stand.
pub fn run(tables: &Tables, text: &mut [u8], errors: &mut [u32]) -> Reported
    ensures { Reports (length text.old) (length errors.old) (report_in_order (record { tables = lent tables.now }) (length text.old) (length errors.old)) result text.new errors.new }
{
    run_ordered(tables, &tables.answers[0..0], text, errors)
}
