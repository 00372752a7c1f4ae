// Where a rule is broken first.
ghost use Rattle.std.specs.Prelude.{◌≡◌, true};
ghost use Rattle.tables.specs.Tables.{lent};
ghost use Rattle.rulebook.specs.Broken.{FirstBroken};

use crate::ask::{rule_holds_at, rule_rows};
use distinct::keys::all_node_keys_differ;
use rows::tables::Tables;
use tables::rule::{Rule, ValueRule};

// Objects may share their children, so the rule on their keys is first looked at for all nodes at once and not row by row.
fn is_on_keys(rule: Rule) -> bool
    ensures { result ≡ true → rule ≡ Rule.Value ValueRule.NodeKeysDiffer }
{
    matches!(rule, Rule::Value(ValueRule::NodeKeysDiffer))
}

// The first row at which the rule does not hold, if there is one.
pub fn first_broken(rule: Rule, tables: &Tables) -> Option<u32>
    ensures { FirstBroken rule (lent tables.now) result }
{
    if is_on_keys(rule) && all_node_keys_differ(tables.pool, tables.nodes) {
        return None;
    }
    (0..rule_rows(rule, tables)).find(|row| !rule_holds_at(rule, tables, *row))
}
