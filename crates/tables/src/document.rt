// The operation's tables: one loop a table for all that is asked of each row.
ghost use Rattle.std.specs.Prelude.{◌≡◌, ◌+◌, ◌≤◌, ◌<◌};
ghost use Rattle.rows.specs.Layout.{set_width, selection_width, given_width, fragment_width};
ghost use Rattle.rows.specs.Limits.{most_selections};
ghost use Rattle.rows.specs.Rows.{all, rows_of};
ghost use Rattle.rules.specs.Document.{given_row, given_of, fragment_row, selected_of, children_larger};
ghost use Rattle.tables.specs.ByTable.{selection_holds, set_holds, conj, document_tests, Skips, LargerUpTo};

use distinct::columns::{Noted, is_distinct_column};
use distinct::owners::owners_differ;
use rows::columns::{
    FRAGMENT_NAME, GIVEN_LITERAL, GIVEN_NAME, SELECTION_GIVEN, SELECTION_GIVEN_COUNT,
    SELECTION_INCLUDE, SELECTION_KEY, SELECTION_KIND, SELECTION_NAME, SELECTION_SET,
    SELECTION_SKIP, SELECTION_TYPE,
};
use rows::document::{
    FRAGMENT_WIDTH, FieldSelection, GIVEN_WIDTH, SELECTION_WIDTH, SET_WIDTH, set_at,
};
use rows::layout::{Range, row_count, word};
use rows::limits::MOST_SELECTIONS;
use rules::document::{FIELD_KIND, child_is_larger, fragment_row, selection_is_lawful, set_row};

#[tactic(auto, unfolding(rows::specs::Document::given_at))]
fn given_holds(names: u32, literals: u32, given: &[u32], row: u32) -> bool
    requires { row < rows_of given.now given_width }
    ensures { result ≡ given_row names literals given.now row }
{
    (word(given, GIVEN_WIDTH, row, GIVEN_NAME) < names)
        & (word(given, GIVEN_WIDTH, row, GIVEN_LITERAL) < literals)
}

fn each_given_holds(names: u32, literals: u32, given: &[u32]) -> bool
    ensures { result ≡ all (given_row names literals given.now) (rows_of given.now given_width) }
{
    let count = row_count(given, GIVEN_WIDTH);
    (0..count).all(|row| given_holds(names, literals, given, row))
}

// Of a selection's words: only a field is given arguments, and their names differ.
fn given_differ(given: &Noted<GIVEN_WIDTH, GIVEN_NAME>, kind: u32, field: FieldSelection) -> bool
    ensures { result ≡ given_of given.now (selected_of kind field.name field) }
{
    (kind != FIELD_KIND) || given.is_distinct(field.given)
}

// `count` is how many arguments are given; the notes are on their names.
#[tactic(auto, unfolding(crate::specs::ByTable::selection_holds, rows::specs::Document::selection_at, rows::specs::Document::selection_of, rows::specs::Document::field_selection, rows::specs::Document::spread_selection, rows::specs::Document::inline_selection))]
fn selection_holds(
    names: u32,
    type_refs: u32,
    sets: u32,
    count: u32,
    selections: &[u32],
    given: &Noted<GIVEN_WIDTH, GIVEN_NAME>,
    row: u32,
) -> bool
    requires row_bound { row < rows_of selections.now selection_width }
    requires count_value { count ≡ rows_of given.now given_width }
    ensures { result ≡ selection_holds names type_refs sets selections.now given.now row }
{
    let kind = word(selections, SELECTION_WIDTH, row, SELECTION_KIND);
    let skip = word(selections, SELECTION_WIDTH, row, SELECTION_SKIP);
    let include = word(selections, SELECTION_WIDTH, row, SELECTION_INCLUDE);
    let field = FieldSelection {
        name: word(selections, SELECTION_WIDTH, row, SELECTION_NAME),
        key: word(selections, SELECTION_WIDTH, row, SELECTION_KEY),
        given: Range {
            first: word(selections, SELECTION_WIDTH, row, SELECTION_GIVEN),
            count: word(selections, SELECTION_WIDTH, row, SELECTION_GIVEN_COUNT),
        },
        set: word(selections, SELECTION_WIDTH, row, SELECTION_SET),
        ty: word(selections, SELECTION_WIDTH, row, SELECTION_TYPE),
    };
    selection_is_lawful(names, type_refs, sets, count, kind, skip, include, field)
        && given_differ(given, kind, field)
}

fn selections_hold(names: u32, type_refs: u32, sets: u32, selections: &[u32], given: &[u32]) -> bool
    ensures { result ≡ all (selection_holds names type_refs sets selections.now given.now) (rows_of selections.now selection_width) }
{
    // There is no limit to these. More than get a note are gone through.
    let mut since = [0u16; 4097];
    let noted = Noted::new(given, &mut since);
    let given_count = row_count(given, GIVEN_WIDTH);
    (0..row_count(selections, SELECTION_WIDTH)).all(|row| {
        selection_holds(names, type_refs, sets, given_count, selections, &noted, row)
    })
}

fn each_fragment_holds(names: u32, sets: u32, fragments: &[u32]) -> bool
    ensures { result ≡ all (fragment_row names sets fragments.now) (rows_of fragments.now fragment_width) }
{
    let count = row_count(fragments, FRAGMENT_WIDTH);
    (0..count).all(|row| fragment_row(names, sets, fragments, row))
}

// The first selection from `from` on that was not looked at in this set or a larger one. Every way that is gone is half as long the next
// time. A `while`, since the skips say which row comes next.
fn first_unlooked(selections: &[u32], set: u32, skips: &mut [u16], from: usize) -> usize
    requires skips { Skips selections.now set skips.old }
    requires from_le_most_selections { from ≤ most_selections }
    ensures skips_2 { Skips selections.now set skips.new }
    ensures larger_up_to { LargerUpTo selections.now set from result }
{
    let mut row = from;
    while skips[row] != 0 {
        let next = skips[row] as usize;
        let further = skips[next];
        if further != 0 {
            skips[row] = further;
        }
        row = next;
    }
    row
}

// From the last set on, a selection is looked at in the first set that has it: a child set that is larger than that is larger than the
// others. A `while`, since rows that were looked at are skipped.
fn children_are_larger(selections: &[u32], set: u32, skips: &mut [u16], rows: Range) -> bool
    requires skips { Skips selections.now set skips.old }
    requires count_bound { rows.first + rows.count ≤ most_selections }
    ensures value { result ≡ children_larger selections.now set rows }
    ensures skips_2 { Skips selections.now set skips.new }
{
    let first = rows.first as usize;
    let end = first + (rows.count as usize);
    let mut row = first_unlooked(selections, set, skips, first);
    while row < end {
        if !child_is_larger(selections, set, row) {
            return false;
        }
        skips[row] = (row + 1) as u16;
        row = first_unlooked(selections, set, skips, row + 1);
    }
    true
}

#[tactic(auto, unfolding(crate::specs::ByTable::set_holds))]
fn set_holds(selections: &[u32], count: u32, sets: &[u32], skips: &mut [u16], set: u32) -> bool
    requires skips { Skips selections.now set skips.old }
    requires count_value { (count ≡ rows_of selections.now selection_width) × (count ≤ most_selections) }
    ensures value { result ≡ set_holds sets.now selections.now set }
    ensures skips_2 { Skips selections.now set skips.new }
{
    set_row(count, sets, set) && children_are_larger(selections, set, skips, set_at(sets, set))
}

fn each_set_holds(sets: &[u32], selections: &[u32]) -> bool
    requires { rows_of selections.now selection_width ≤ most_selections }
    ensures { result ≡ all (set_holds sets.now selections.now) (rows_of sets.now set_width) }
{
    let count = row_count(selections, SELECTION_WIDTH);
    let mut skips = [0u16; MOST_SELECTIONS + 1];
    let set_count = row_count(sets, SET_WIDTH);
    for set in (0..set_count).rev() {
        if !set_holds(selections, count, sets, &mut skips, set) {
            return false;
        }
    }
    true
}

#[tactic(auto, unfolding(crate::specs::ByTable::conj))]
pub(crate) fn document_is_lawful(
    names: u32,
    type_refs: u32,
    sets: &[u32],
    selections: &[u32],
    given: &[u32],
    fragments: &[u32],
    literals: u32,
) -> bool
    requires { rows_of selections.now selection_width ≤ most_selections }
    ensures { result ≡ conj (document_tests names type_refs sets.now selections.now given.now fragments.now literals) }
{
    let set_count = row_count(sets, SET_WIDTH);
    each_given_holds(names, literals, given)
        && selections_hold(names, type_refs, set_count, selections, given)
        && each_fragment_holds(names, set_count, fragments)
        && is_distinct_column(fragments, FRAGMENT_WIDTH, FRAGMENT_NAME)
        && owners_differ(selections, fragments)
        && each_set_holds(sets, selections)
}
