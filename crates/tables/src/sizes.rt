// How long the tables are. Each looks at all of its tables: straight code is quickest, and the tables are few.
ghost use Rattle.std.specs.Prelude.{◌≡◌, [], ◌∷◌, length, leb};
ghost use Rattle.rows.specs.Layout.{name_width, type_ref_width, type_width, field_width, argument_width, set_width, selection_width, given_width, fragment_width, node_width, literal_width, variable_width, answer_width};
ghost use Rattle.rows.specs.Limits.{most_bytes, least_names, most_names, most_type_refs, most_types, most_fields, most_arguments, most_selections, most_fragments, most_nodes, most_literals, most_variables, most_answers, most_rows};
ghost use Rattle.rules.specs.Rows.{counted};
ghost use Rattle.tables.specs.ByTable.{conj};

use rows::answers::ANSWER_WIDTH;
use rows::document::{FRAGMENT_WIDTH, GIVEN_WIDTH, SELECTION_WIDTH, SET_WIDTH};
use rows::json::{LITERAL_WIDTH, NODE_WIDTH, VARIABLE_WIDTH};
use rows::limits::{
    LEAST_NAMES, MOST_ANSWERS, MOST_ARGUMENTS, MOST_BYTES, MOST_FIELDS, MOST_FRAGMENTS,
    MOST_LITERALS, MOST_NAMES, MOST_NODES, MOST_ROWS, MOST_SELECTIONS, MOST_TYPE_REFS, MOST_TYPES,
    MOST_VARIABLES,
};
use rows::names::NAME_WIDTH;
use rows::schema::{ARGUMENT_WIDTH, FIELD_WIDTH, TYPE_REF_WIDTH, TYPE_WIDTH};
use rules::layout::is_counted;

#[tactic(auto, unfolding(crate::specs::ByTable::conj))]
pub(crate) fn schema_is_sized(
    pool: &[u8],
    names: &[u32],
    type_refs: &[u32],
    types: &[u32],
    fields: &[u32],
    arguments: &[u32],
) -> bool
    ensures { result ≡ conj (leb (length pool.now) most_bytes ∷ counted name_width least_names most_names names.now ∷ counted type_ref_width 0 most_type_refs type_refs.now ∷ counted type_width 0 most_types types.now ∷ counted field_width 0 most_fields fields.now ∷ counted argument_width 0 most_arguments arguments.now ∷ []) }
{
    (pool.len() <= MOST_BYTES)
        & (is_counted(names, NAME_WIDTH, LEAST_NAMES, MOST_NAMES)
            & (is_counted(type_refs, TYPE_REF_WIDTH, 0, MOST_TYPE_REFS)
                & (is_counted(types, TYPE_WIDTH, 0, MOST_TYPES)
                    & (is_counted(fields, FIELD_WIDTH, 0, MOST_FIELDS)
                        & is_counted(arguments, ARGUMENT_WIDTH, 0, MOST_ARGUMENTS)))))
}

#[tactic(auto, unfolding(crate::specs::ByTable::conj))]
pub(crate) fn document_is_sized(
    sets: &[u32],
    selections: &[u32],
    given: &[u32],
    fragments: &[u32],
) -> bool
    ensures { result ≡ conj (counted set_width 1 most_rows sets.now ∷ counted selection_width 0 most_selections selections.now ∷ counted given_width 0 most_rows given.now ∷ counted fragment_width 0 most_fragments fragments.now ∷ []) }
{
    is_counted(sets, SET_WIDTH, 1, MOST_ROWS)
        & (is_counted(selections, SELECTION_WIDTH, 0, MOST_SELECTIONS)
            & (is_counted(given, GIVEN_WIDTH, 0, MOST_ROWS)
                & is_counted(fragments, FRAGMENT_WIDTH, 0, MOST_FRAGMENTS)))
}

#[tactic(auto, unfolding(crate::specs::ByTable::conj))]
pub(crate) fn values_are_sized(
    nodes: &[u32],
    literals: &[u32],
    variables: &[u32],
    answers: &[u32],
) -> bool
    ensures { result ≡ conj (counted node_width 0 most_nodes nodes.now ∷ counted literal_width 0 most_literals literals.now ∷ counted variable_width 0 most_variables variables.now ∷ counted answer_width 1 most_answers answers.now ∷ []) }
{
    is_counted(nodes, NODE_WIDTH, 0, MOST_NODES)
        & (is_counted(literals, LITERAL_WIDTH, 0, MOST_LITERALS)
            & (is_counted(variables, VARIABLE_WIDTH, 0, MOST_VARIABLES)
                & is_counted(answers, ANSWER_WIDTH, 1, MOST_ANSWERS)))
}
