// The public entries, and the rules one by one, over what a table file holds.
ghost use Rattle.std.specs.Prelude.{◌≡◌};
ghost use Rattle.rulebook.specs.Broken.{FirstBroken};
ghost use Rattle.tables.specs.Lawful.{table_code};
ghost use Rattle.graphql.specs.Depth.{depth_report};
ghost use Rattle.introspection.specs.MaxDepth.{Answers};
ghost use Rattle.verdict.specs.Held.{tables_held};

use introspection::max_depth::{DepthAnswer, depth_check};
use rulebook::broken;
use table_file::Held;
use tables::check::table_check;
use tables::rule::Rule;

// The table check's answer.
pub fn code(held: &Held) -> u32
    ensures { result ≡ table_code (tables_held held.now) }
{
    table_check(&held.tables())
}

// The depth check's answer.
pub fn depth(held: &Held) -> DepthAnswer
    ensures { Answers result (depth_report (tables_held held.now)) }
{
    depth_check(&held.tables())
}

// Where a rule of the table check is broken first.
pub fn first_broken(rule: Rule, held: &Held) -> Option<u32>
    ensures { FirstBroken rule (tables_held held.now) result }
{
    broken::first_broken(rule, &held.tables())
}
