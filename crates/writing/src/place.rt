// What was written is finished: it gets its brackets, goes to its place among what was written before it, or is cleared.
ghost use Rattle.std.specs.Prelude.{◌≡◌, ◌≤◌, length};
ghost use Rattle.writing.specs.Wrote.{Closes, Moves, rotated, filled_from};

use crate::element::Element;
use crate::write::put;

// Entries, each written with a comma before it, get their brackets: the first comma is where the left one goes.
pub fn close(text: &mut [u8], start: usize, at: usize, left: u8, right: u8) -> usize
    ensures { Closes left right text.old start at text.new result }
{
    if at == start {
        let next = put(text, at, left);
        return put(text, next, right);
    }
    if start < text.len() {
        text[start] = left;
    }
    put(text, at, right)
}

// The bytes from b to e go before those from a to b: both runs are turned round, and then all of it. The library's `rotate_left`
// keeps 4,096 bytes of the stack for what waits, and no level of a walk has so much.
fn rotate(text: &mut [u8], a: usize, b: usize, e: usize)
    requires { (a ≤ b) × (b ≤ e) × (e ≤ length text.old) }
    ensures { text.new ≡ rotated a b e text.old }
{
    text[a..b].reverse();
    text[b..e].reverse();
    text[a..e].reverse();
}

// What was written last, from b to e, goes to its place a. Of a text that did not fit there is nothing to move.
pub fn turn_into_place(text: &mut [u8], a: usize, b: usize, e: usize)
    ensures { Moves text.old a b e text.new }
{
    if e <= text.len() && b <= e && a <= b {
        rotate(text, a, b, e);
    }
}

// All elements from `from` on become 0.
pub fn clear<T: Element>(buffer: &mut [T], from: usize)
    ensures { buffer.new ≡ filled_from T.ZERO from buffer.old }
{
    if from < buffer.len() {
        buffer[from..].fill_with(|| T::ZERO);
    }
}
