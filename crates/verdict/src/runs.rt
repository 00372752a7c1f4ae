// The two runs over what a table file holds.
ghost use Rattle.std.specs.Prelude.{length};
ghost use Rattle.graphql.specs.Report.{report, report_in_order, Reports};
ghost use Rattle.verdict.specs.Held.{tables_held};

use codes::report::Reported;
use running::run;
use table_file::Held;

// The run in document order.
pub fn run_in_order(held: &Held, text: &mut [u8], errors: &mut [u32]) -> Reported
    ensures { Reports (length text.old) (length errors.old) (report_in_order (record { tables = tables_held held.now }) (length text.old) (length errors.old)) result text.new errors.new }
{
    run::run(&held.tables(), text, errors)
}

// The run in a given order.
pub fn run_by_choices(held: &Held, choices: &[u32], text: &mut [u8], errors: &mut [u32]) -> Reported
    ensures { Reports (length text.old) (length errors.old) (report (record { tables = tables_held held.now }) (length text.old) (length errors.old) choices.now) result text.new errors.new }
{
    run::run_ordered(&held.tables(), choices, text, errors)
}
