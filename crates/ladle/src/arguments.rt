// The words of the command line.
ghost use Rattle.std.specs.Prelude.{◌≤◌};

use std::rt::Env;
use verdict::arguments::put;

// A verb says what is asked of the files behind it, and an option how they are run.
#[derive(Clone, Copy, PartialEq, Eq, Debug)]
pub enum Word {
    Check,
    Depth,
    Run,
    Raw,
    Order,
    // What stands behind `--order`.
    Choices,
    File,
}

// What an argument is by itself. What is longer than these words is a file.
fn word_alone(env: &impl Env, number: usize) -> Word {
    // No heap: a buffer of a fixed size.
    let mut argument = [0u8; 8];
    let n = put(env, number, &mut argument);
    match &argument[..n] {
        b"check" => Word::Check,
        b"depth" => Word::Depth,
        b"run" => Word::Run,
        b"--raw" => Word::Raw,
        b"--order" => Word::Order,
        _ => Word::File,
    }
}

pub(crate) fn word_at(env: &impl Env, number: usize) -> Word {
    if number > 0 && matches!(word_alone(env, number - 1), Word::Order) {
        return Word::Choices;
    }
    word_alone(env, number)
}

// Whether the first argument is a verb.
pub(crate) fn begins_with_verb(env: &impl Env) -> bool {
    matches!(word_at(env, 1), Word::Check | Word::Depth | Word::Run)
}

// How many of the arguments are files.
pub(crate) fn file_count(env: &impl Env, count: usize) -> usize {
    (1..count)
        .filter(|number| word_at(env, *number) == Word::File)
        .count()
}
