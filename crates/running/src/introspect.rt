// Whether the operation asks for the schema.
ghost use Rattle.std.specs.Prelude.{◌≡◌};
ghost use Rattle.graphql.specs.Report.{asks_schema, introspects as Report·introspects};

use rows::document::{SELECTION_WIDTH, Selected, what_is_selected};
use rows::layout::row_count;

// The names `__schema` and `__type`.
const SCHEMA: u32 = 6;

const TYPE: u32 = 7;

fn asks_schema(what: Selected) -> bool
    ensures { result ≡ asks_schema what }
{
    match what {
        Selected::Field(field) => (field.name == SCHEMA) | (field.name == TYPE),
        Selected::Spread { name: _ } => false,
        Selected::Inline {
            condition: _,
            set: _,
        } => false,
        Selected::Unknown => false,
    }
}

// "a selection row is a field named `__schema` or `__type`"
pub fn introspects(selections: &[u32]) -> bool
    ensures { result ≡ Report·introspects selections.now }
{
    let count = row_count(selections, SELECTION_WIDTH);
    for row in 0..count {
        if asks_schema(what_is_selected(selections, row)) {
            return true;
        }
    }
    false
}
