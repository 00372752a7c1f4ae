// What the operation's tables have to obey: sets of selections, arguments given, fragments.
ghost use Rattle.std.specs.Prelude.{◌≡◌, ◌<◌, ◌^◌};
ghost use Rattle.rows.specs.Document.{condition_of};
ghost use Rattle.rules.specs.Document.{set_row, condition_lawful, selected_of, what_lawful, selection_lawful, selection_row, given_row, given_of, given_differ, fragment_row, fragment_name_new, owned_of, owned_set, larger_than, child_larger, children_larger, child_sets_larger, owns_other, owned_nowhere, alone, selection_owns_alone, fragment_owns_alone};

use crate::layout::{is_distinct, is_new, is_within};
use rows::columns::{
    FRAGMENT_NAME, FRAGMENT_SET, GIVEN_NAME, SELECTION_INCLUDE, SELECTION_KIND, SELECTION_SET,
    SELECTION_SKIP,
};
use rows::document::{
    FRAGMENT_WIDTH, FieldSelection, GIVEN_WIDTH, SELECTION_WIDTH, Selected, field_selection,
    fragment_at, given_at, set_at, what_is_selected,
};
use rows::layout::{Range, cell, row_count};

// The kind of a selection that is a field, which searches ask for before they read more of a row.
pub const FIELD_KIND: u32 = 0;

pub fn set_row(selections: u32, sets: &[u32], row: u32) -> bool
    ensures { result ≡ set_row selections sets.now row }
{
    is_within(selections, set_at(sets, row))
}

// Of a skip's or an include's word.
fn condition_is_lawful(names: u32, word: u32) -> bool
    ensures { result ≡ condition_lawful names (condition_of word) }
{
    (word as u64) < (names as u64) + 3
}

// What is selected, by the kind and the words that a field has; the other kinds have some of them.
fn what_is_lawful(
    names: u32,
    type_refs: u32,
    sets: u32,
    given: u32,
    kind: u32,
    field: FieldSelection,
) -> bool
    ensures { result ≡ what_lawful names type_refs sets given (selected_of kind field.name field) }
{
    let is_named = field.name < names;
    let has_set = field.set < sets;
    match kind {
        0 => {
            ((is_named & (field.key < names))
                & (is_within(given, field.given) & (field.ty < type_refs)))
                & has_set
        }
        1 => is_named,
        2 => (field.name <= names) & has_set,
        _ => false,
    }
}

// Of all of a selection's words but its place.
pub fn selection_is_lawful(
    names: u32,
    type_refs: u32,
    sets: u32,
    given: u32,
    kind: u32,
    skip: u32,
    include: u32,
    field: FieldSelection,
) -> bool
    ensures { result ≡ selection_lawful names type_refs sets given (record { what = selected_of kind field.name field; skip = condition_of skip; include = condition_of include; place = 0 }) }
{
    let conditions = condition_is_lawful(names, skip) & condition_is_lawful(names, include);
    conditions & what_is_lawful(names, type_refs, sets, given, kind, field)
}

#[tactic(auto, unfolding(rows::specs::Document::selection_at, rows::specs::Document::selection_of, rows::specs::Document::field_selection, rows::specs::Document::spread_selection, rows::specs::Document::inline_selection))]
pub fn selection_row(
    names: u32,
    type_refs: u32,
    sets: u32,
    given: u32,
    selections: &[u32],
    row: u32,
) -> bool
    ensures { result ≡ selection_row names type_refs sets given selections.now row }
{
    let at = row as usize;
    let kind = cell(selections, SELECTION_WIDTH, at, SELECTION_KIND);
    let skip = cell(selections, SELECTION_WIDTH, at, SELECTION_SKIP);
    let include = cell(selections, SELECTION_WIDTH, at, SELECTION_INCLUDE);
    let field = field_selection(selections, row);
    selection_is_lawful(names, type_refs, sets, given, kind, skip, include, field)
}

pub fn given_row(names: u32, literals: u32, given: &[u32], row: u32) -> bool
    ensures { result ≡ given_row names literals given.now row }
{
    let argument = given_at(given, row);
    (argument.name < names) & (argument.literal < literals)
}

fn given_of(given: &[u32], what: Selected) -> bool
    ensures { result ≡ given_of given.now what }
{
    match what {
        Selected::Field(field) => is_distinct(given, GIVEN_WIDTH, GIVEN_NAME, field.given),
        _ => true,
    }
}

pub fn given_differ(selections: &[u32], given: &[u32], row: u32) -> bool
    ensures { result ≡ given_differ selections.now given.now row }
{
    given_of(given, what_is_selected(selections, row))
}

pub fn fragment_row(names: u32, sets: u32, fragments: &[u32], row: u32) -> bool
    ensures { result ≡ fragment_row names sets fragments.now row }
{
    let fragment = fragment_at(fragments, row);
    ((fragment.name < names) & (fragment.condition < names)) & (fragment.set < sets)
}

pub fn fragment_name_is_new(fragments: &[u32], row: u32) -> bool
    ensures { result ≡ fragment_name_new fragments.now row }
{
    is_new(fragments, FRAGMENT_WIDTH, FRAGMENT_NAME, 0, row)
}

fn owned_of(kind: u32, set: u32) -> Option<u32>
    ensures { result ≡ owned_of kind set }
{
    match kind {
        0 => { if set == 0 { None } else { Some(set) } }
        2 => Some(set),
        _ => None,
    }
}

// The set that a selection owns.
pub fn owned_set(selections: &[u32], row: usize) -> Option<u32>
    requires { row < 2 ^ 40 }
    ensures { result ≡ owned_set selections.now row }
{
    owned_of(
        cell(selections, SELECTION_WIDTH, row, SELECTION_KIND),
        cell(selections, SELECTION_WIDTH, row, SELECTION_SET),
    )
}

fn is_larger_than(set: u32, owned: Option<u32>) -> bool
    ensures { result ≡ larger_than set owned }
{
    owned.is_none_or(|child| set < child)
}

pub fn child_is_larger(selections: &[u32], set: u32, row: usize) -> bool
    requires { row < 2 ^ 40 }
    ensures { result ≡ child_larger selections.now set row }
{
    is_larger_than(set, owned_set(selections, row))
}

fn children_are_larger(selections: &[u32], set: u32, rows: Range) -> bool
    ensures { result ≡ children_larger selections.now set rows }
{
    let first = rows.first as usize;
    let count = rows.count;
    (0..count).all(|i| child_is_larger(selections, set, first + (i as usize)))
}

pub fn child_sets_are_larger(sets: &[u32], selections: &[u32], row: u32) -> bool
    ensures { result ≡ child_sets_larger sets.now selections.now row }
{
    children_are_larger(selections, row, set_at(sets, row))
}

fn is_other_set(set: u32, owned: Option<u32>) -> bool
    ensures { result ≡ owns_other set owned }
{
    owned.is_none_or(|other| set != other)
}

fn owns_other(selections: &[u32], set: u32, row: u32) -> bool
    ensures { result ≡ owns_other set (owned_set selections.now row) }
{
    is_other_set(set, owned_set(selections, row as usize))
}

// None of the first n selections owns the set.
fn is_owned_nowhere(selections: &[u32], set: u32, n: u32) -> bool
    ensures { result ≡ owned_nowhere selections.now set n }
{
    (0..n).all(|j| owns_other(selections, set, j))
}

fn is_alone(selections: &[u32], row: u32, owned: Option<u32>) -> bool
    ensures { result ≡ alone selections.now row owned }
{
    owned.is_none_or(|set| (set != 0) & is_owned_nowhere(selections, set, row))
}

pub fn selection_owns_alone(selections: &[u32], row: u32) -> bool
    ensures { result ≡ selection_owns_alone selections.now row }
{
    is_alone(selections, row, owned_set(selections, row as usize))
}

pub fn fragment_owns_alone(selections: &[u32], fragments: &[u32], row: u32) -> bool
    ensures { result ≡ fragment_owns_alone selections.now fragments.now row }
{
    let fragment = fragment_at(fragments, row);
    let count = row_count(selections, SELECTION_WIDTH);
    let new = is_new(fragments, FRAGMENT_WIDTH, FRAGMENT_SET, 0, row);
    is_alone(selections, count, Some(fragment.set)) & new
}
