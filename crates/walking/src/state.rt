// How a run stands, and how a part of it ends.

// Where the next byte of the text goes, the next word of the errors and the next choice, and how many rows of plans stand. A position past its
// buffer's end says only that it is past it.
#[derive(Clone, Copy)]
pub struct State {
    pub at: usize,
    pub errs: usize,
    pub choice: usize,
    pub top: usize,
}

// What stands at a place. An entry of a list or an object may be left out.
#[derive(Clone, Copy)]
pub enum Kind {
    LeftOut,
    Null,
    Leaf,
    List,
    Object,
}

// How far a failure goes up: to the place around it, past the list around it, or to the end of the run, with document 01's code.
#[derive(Clone, Copy)]
pub enum Failure {
    Here,
    PastList,
    Stop(u32),
}

// A completion: what stands at the completed place, or a failure going up; and how the run stands then.
#[derive(Clone, Copy)]
pub struct Done {
    pub what: Result<Kind, Failure>,
    pub state: State,
}
