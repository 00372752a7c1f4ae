// What becomes of a value that failed, and of an entry.
ghost use Rattle.std.specs.Prelude.{◌≡◌, ◌≤◌};
ghost use Rattle.walking.specs.Paths.{error_at};
ghost use Rattle.walking.specs.Gives.{moved_to};
ghost use Rattle.walking.specs.Settled.{FailsWith, Nullifies, passed_list, Settles};

use crate::path::Path;
use crate::record::put_record;
use crate::state::{Done, Failure, Kind, State};
use codes::errors::FieldError;
use tokens::json::put_null;

// The same state with the text at another position.
pub fn moved(s: State, at: usize) -> State
    ensures { result ≡ moved_to s at }
{
    State {
        at: at,
        errs: s.errs,
        choice: s.choice,
        top: s.top,
    }
}

// A place that is completed, with its text up to a position.
pub fn placed(s: State, at: usize, kind: Kind) -> Done
    ensures { result ≡ record { what = Ok kind; state = moved_to s at } }
{
    Done {
        what: Ok(kind),
        state: moved(s, at),
    }
}

// The run ends here, with a code.
pub fn stopped(s: State, code: u32) -> Done
    ensures { result ≡ record { what = Err (Failure.Stop code); state = s } }
{
    Done {
        what: Err(Failure::Stop(code)),
        state: s,
    }
}

// A failure with its record, at a place below a path.
pub fn fail(
    errors: &mut [u32],
    s: State,
    failure: Failure,
    error: FieldError,
    place: u32,
    path: Path,
    last: u16,
) -> Done
    requires { path.count ≤ 32 }
    ensures { FailsWith failure (error_at error place path last) errors.old s result errors.new }
{
    let errs = put_record(errors, s.errs, error, place, path, last);
    Done {
        what: Err(failure),
        state: State {
            at: s.at,
            errs: errs,
            choice: s.choice,
            top: s.top,
        },
    }
}

// Null where a value fails, unless the place is non-null.
pub fn try_nullify(text: &mut [u8], non_null: bool, d: Done) -> Done
    ensures { Nullifies non_null d text.old result text.new }
{
    let state = d.state;
    let what = d.what;
    let Err(failure) = what else {
        return d;
    };
    let Failure::Here = failure else {
        return d;
    };
    if non_null {
        return d;
    }
    let at = put_null(text, state.at);
    placed(state, at, Kind::Null)
}

// An error answer inside a list has failed the list; past it, it is a failure like any other.
pub fn past_list(d: Done) -> Done
    ensures { result ≡ passed_list d }
{
    let state = d.state;
    let what = d.what;
    let Err(failure) = what else {
        return d;
    };
    let Failure::PastList = failure else {
        return d;
    };
    Done {
        what: Err(Failure::Here),
        state: state,
    }
}

// An entry that began at `start` stays where it was written; one that is left out, or fails, is taken back.
pub fn settle(d: Done, start: usize) -> Done
    ensures { Settles start d result }
{
    let state = d.state;
    let what = d.what;
    let Ok(kind) = what else {
        return Done {
            what: what,
            state: moved(state, start),
        };
    };
    let Kind::LeftOut = kind else {
        return d;
    };
    let back = moved(state, start);
    Done {
        what: what,
        state: back,
    }
}
