// Owners of sets: the operation, fields, inline fragments and fragments. No set has two. Sets below 4,096 are told by a mark each; a larger
// one, of which lawful tables may have any number, is looked for among the rows before.
ghost use Rattle.std.specs.Prelude.{◌≡◌, true, ◌&&◌, ◌+◌, ◌<◌};
ghost use Rattle.rows.specs.Layout.{selection_width, fragment_width};
ghost use Rattle.rows.specs.Rows.{all, rows_of};
ghost use Rattle.rules.specs.Document.{selection_owns_alone, fragment_owns_alone};
ghost use Rattle.rules.specs.Marks.{Marked};
ghost use Rattle.distinct.specs.Marks.{free_of_selections, free_of_fragments};

use rows::document::{FRAGMENT_WIDTH, SELECTION_WIDTH, fragment_at};
use rows::layout::row_count;
use rules::document::{fragment_owns_alone, owned_set, selection_owns_alone};
use rules::marks::mark;

// Whether a selection owns its set alone among those before it; marks the set.
fn selection_claims(selections: &[u32], row: u32, marks: &mut [bool]) -> bool
    requires { Marked 4096 (free_of_selections selections.now row) marks.old }
    ensures value { result ≡ selection_owns_alone selections.now row }
    ensures marked { Marked 4096 (free_of_selections selections.now (row + 1)) marks.new }
{
    let owned = owned_set(selections, row as usize);
    let Some(set) = owned else {
        return true;
    };
    match mark(marks, set) {
        Some(free) => free,
        None => selection_owns_alone(selections, row),
    }
}

// Whether a fragment owns its set alone among all selections and the fragments before it; marks the set.
fn fragment_claims(selections: &[u32], fragments: &[u32], row: u32, marks: &mut [bool]) -> bool
    requires { Marked 4096 (free_of_fragments selections.now fragments.now row) marks.old }
    ensures value { result ≡ fragment_owns_alone selections.now fragments.now row }
    ensures marked { Marked 4096 (free_of_fragments selections.now fragments.now (row + 1)) marks.new }
{
    let fragment = fragment_at(fragments, row);
    match mark(marks, fragment.set) {
        Some(free) => free,
        None => fragment_owns_alone(selections, fragments, row),
    }
}

// A loop and no `all`, as the next one: the marks change from row to row, and the library's clause of `all` says nothing of them.
fn selections_claim(selections: &[u32], marks: &mut [bool]) -> bool
    requires { Marked 4096 (free_of_selections selections.now 0) marks.old }
    ensures value { result ≡ all (selection_owns_alone selections.now) (rows_of selections.now selection_width) }
    ensures marked { result ≡ true → Marked 4096 (free_of_selections selections.now (rows_of selections.now selection_width)) marks.new }
{
    let rows = row_count(selections, SELECTION_WIDTH);
    for row in 0..rows {
        if !selection_claims(selections, row, marks) {
            return false;
        }
    }
    true
}

fn fragments_claim(selections: &[u32], fragments: &[u32], marks: &mut [bool]) -> bool
    requires { Marked 4096 (free_of_fragments selections.now fragments.now 0) marks.old }
    ensures { result ≡ all (fragment_owns_alone selections.now fragments.now) (rows_of fragments.now fragment_width) }
{
    let rows = row_count(fragments, FRAGMENT_WIDTH);
    for row in 0..rows {
        if !fragment_claims(selections, fragments, row, marks) {
            return false;
        }
    }
    true
}

// Every selection and every fragment owns its set alone.
pub fn owners_differ(selections: &[u32], fragments: &[u32]) -> bool
    ensures { result ≡ (all (selection_owns_alone selections.now) (rows_of selections.now selection_width) && all (fragment_owns_alone selections.now fragments.now) (rows_of fragments.now fragment_width)) }
{
    let mut marks = [false; 4096];
    marks[0] = true;
    selections_claim(selections, &mut marks) && fragments_claim(selections, fragments, &mut marks)
}
