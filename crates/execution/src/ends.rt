// How a list, an object and a set that stands apart end.
ghost use Rattle.std.specs.Prelude.{◌≡◌};
ghost use Rattle.execution.specs.Ends.{planned_to, ListEnds, ObjectEnds, done_apart};

use walking::settle::{past_list, settle, try_nullify};
use walking::state::{Done, State};

// The same state with other plans standing.
pub fn planned_to(s: State, top: usize) -> State
    ensures { result ≡ planned_to s top }
{
    State {
        at: s.at,
        errs: s.errs,
        choice: s.choice,
        top: top,
    }
}

// A set that had a store to itself is done, and the plans stand that stood before.
pub fn done_apart(d: Done, top: usize) -> Done
    ensures { result ≡ done_apart d top }
{
    let what = d.what;
    Done {
        what: what,
        state: planned_to(d.state, top),
    }
}

// A list behind its label, which begins at `start`: null where an item failed and the list may be null; past it, the place around it.
pub fn list_done(text: &mut [u8], nullable: bool, non_null: bool, start: usize, d: Done) -> Done
    ensures { ListEnds nullable non_null start d text.old result text.new }
{
    let own = past_list(try_nullify(text, !nullable, d));
    settle(try_nullify(text, non_null, own), start)
}

// An object behind its label.
pub fn object_done(text: &mut [u8], non_null: bool, start: usize, d: Done) -> Done
    ensures { ObjectEnds non_null start d text.old result text.new }
{
    settle(try_nullify(text, non_null, d), start)
}
