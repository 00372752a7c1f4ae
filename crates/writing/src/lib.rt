// What is written into a lent buffer: bytes of a text, and words of error records.
//
// `element` says what a buffer is made of; `write` puts an element or a run of bytes, `words` the records of errors, and `place`
// brackets, moves and clears what was written.
// A buffer is lent and may be too short. No writer refuses: a position past the end says that the text did not fit, and stays past it.
#![tactic(auto)]

pub mod element;
pub mod place;
pub mod words;
pub mod write;
