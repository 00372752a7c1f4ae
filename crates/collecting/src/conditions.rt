// Skip and include.
ghost use Rattle.std.specs.Prelude.{◌≡◌, true, false, not, ◌||◌};
ghost use Rattle.graphql.specs.Lookup.{variable_named};
ghost use Rattle.graphql.specs.Collect.{variable_holds, holds};
ghost use Rattle.tables.specs.Tables.{lent};

use lookup::named::variable_named;
use rows::document::Condition;
use rows::json::{Node, node_at, variable_at};
use rows::tables::Tables;

// "A variable that is absent or not boolean counts as no directive."
#[tactic(auto, using(crate::proofs::Leaves::conditions))]
fn variable_holds(tables: &Tables, default: bool, name: u32) -> bool
    ensures { let t = lent tables.now in result ≡ variable_holds t.variables t.nodes default (variable_named t.variables name) }
{
    let found = variable_named(tables.variables, name);
    let Some(row) = found else {
        return default;
    };
    let variable = variable_at(tables.variables, row);
    match node_at(tables.nodes, variable.node) {
        Node::False => false,
        Node::True => true,
        _ => default,
    }
}

// Whether a directive's `if` holds; `default` is what counts where there is no directive.
#[tactic(auto, unfolding(graphql::specs::Collect::holds))]
fn eval_if_arg(tables: &Tables, default: bool, condition: Condition) -> bool
    ensures { let t = lent tables.now in result ≡ holds t.variables t.nodes default condition }
{
    match condition {
        Condition::Absent => default,
        Condition::False => false,
        Condition::True => true,
        Condition::Variable(name) => variable_holds(tables, default, name),
    }
}

// "A selection is dropped if skip is true or include is false."
pub fn is_dropped(tables: &Tables, skip: Condition, include: Condition) -> bool
    ensures { let t = lent tables.now in result ≡ (holds t.variables t.nodes false skip || not (holds t.variables t.nodes true include)) }
{
    eval_if_arg(tables, false, skip) || !eval_if_arg(tables, true, include)
}
