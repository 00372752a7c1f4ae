// Defaults contain no variable. A literal may be a part of many others, so each is looked at once, the last row first: its parts
// come later. What is kept of each is how long a run of literals without a variable begins there; a range of parts then takes one look.
ghost use Rattle.std.specs.Prelude.{◌≡◌, ◌+◌, ◌≤◌, ◌<◌, get_or, set};
ghost use Rattle.rows.specs.Layout.{literal_width};
ghost use Rattle.rows.specs.Limits.{most_literals};
ghost use Rattle.rows.specs.Rows.{rows_of, all, option_of};
ghost use Rattle.rows.specs.Json.{literal_of, literal_at};
ghost use Rattle.tables.specs.Defaults.{defaults_closed};
ghost use Rattle.tables.specs.Marking.{run, in_run, closed_in, Marked, Nested, Defaulted, default_unmarked, row_unmarked};

use rows::columns::{ARGUMENT_DEFAULT, FIELD_DEFAULT, LITERAL_KIND, LITERAL_ONE, LITERAL_TWO};
use rows::json::LITERAL_WIDTH;
use rows::layout::{Range, row_count, word};
use rows::limits::MOST_LITERALS;
use rows::schema::{ARGUMENT_WIDTH, FIELD_WIDTH};

// The run that begins at a row; none past the last one.
fn run_at(runs: &[u16], row: usize) -> u16
    ensures { result ≡ get_or runs.now row 0 }
{
    if row < runs.len() { runs[row] } else { 0 }
}

fn is_in_run(runs: &[u16], rows: Range) -> bool
    ensures { result ≡ in_run runs.now rows }
{
    let count = rows.count;
    count <= (run_at(runs, rows.first as usize) as u32)
}

// Of a literal's words: whether it is no variable and all its parts are in one run.
fn is_closed(runs: &[u16], kind: u32, a: u32, b: u32) -> bool
    ensures { result ≡ closed_in runs.now (literal_of kind a b) }
{
    match kind {
        7 | 8 => is_in_run(runs, Range { first: a, count: b }),
        10 => false,
        _ => true,
    }
}

#[tactic(auto, unfolding(rows::specs::Json::literal_at))]
fn row_is_closed(literals: &[u32], runs: &[u16], row: u32) -> bool
    requires { row < rows_of literals.now literal_width }
    ensures { result ≡ closed_in runs.now (literal_at literals.now row) }
{
    let kind = word(literals, LITERAL_WIDTH, row, LITERAL_KIND);
    let a = word(literals, LITERAL_WIDTH, row, LITERAL_ONE);
    let b = word(literals, LITERAL_WIDTH, row, LITERAL_TWO);
    is_closed(runs, kind, a, b)
}

// A closed literal makes the run behind it longer by one; any other ends it.
fn run_of(closed: bool, behind: u16) -> u16
    requires { behind < 65535 }
    ensures { result ≡ run closed behind }
{
    if closed { behind + 1 } else { 0 }
}

fn mark_row(literals: &[u32], runs: &mut [u16], row: u32)
    requires row_bound { (row < rows_of literals.now literal_width) × (row < most_literals) }
    requires marked { Marked literals.now runs.old (row + 1) }
    ensures { runs.new ≡ set runs.old row (run (closed_in runs.old (literal_at literals.now row)) (get_or runs.old (row + 1) 0)) }
{
    let at = row as usize;
    let behind = runs[at + 1];
    runs[at] = run_of(row_is_closed(literals, runs, row), behind);
}

fn mark_all(literals: &[u32], runs: &mut [u16])
    requires marked { Marked literals.now runs.old (rows_of literals.now literal_width) }
    requires nested { Nested literals.now }
    ensures { Marked literals.now runs.new 0 }
{
    let rows = row_count(literals, LITERAL_WIDTH);
    for row in (0..rows).rev() {
        mark_row(literals, runs, row);
    }
}

// Of a default's word: 0 for none, and otherwise one more than the literal's row.
fn default_is_unmarked(runs: &[u16], default: u32) -> bool
    ensures { result ≡ default_unmarked runs.now (option_of default) }
{
    (default == 0)
        || is_in_run(
            runs,
            Range {
                first: default - 1,
                count: 1,
            },
        )
}

// The defaults of a table stand in one of its columns.
fn defaults_are_unmarked(t: &[u32], width: usize, column: usize, runs: &[u16]) -> bool
    requires { (0 < width) × (width ≤ 16) × (column < width) }
    ensures { result ≡ all (row_unmarked t.now width column runs.now) (rows_of t.now width) }
{
    let rows = row_count(t, width);
    (0..rows).all(|row| default_is_unmarked(runs, word(t, width, row, column)))
}

// The parts of literals come later, and the defaults of fields and arguments are literals that are there.
pub(crate) fn defaults_are_closed(fields: &[u32], arguments: &[u32], literals: &[u32]) -> bool
    requires nested { Nested literals.now }
    requires defaulted { Defaulted fields.now arguments.now literals.now }
    ensures { result ≡ defaults_closed fields.now arguments.now literals.now }
{
    let mut runs = [0u16; MOST_LITERALS + 1];
    mark_all(literals, &mut runs);
    defaults_are_unmarked(fields, FIELD_WIDTH, FIELD_DEFAULT, &runs)
        & defaults_are_unmarked(arguments, ARGUMENT_WIDTH, ARGUMENT_DEFAULT, &runs)
}
