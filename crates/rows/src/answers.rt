// The answers of the resolvers.
ghost use Rattle.std.specs.Prelude.{◌≡◌};
ghost use Rattle.rows.specs.Answers.{answer_of, answer_at, answer_name};

use crate::columns::{ANSWER_KIND, ANSWER_NAME, ANSWER_ONE, ANSWER_THREE, ANSWER_TWO};
use crate::layout::{Range, cell};

pub const ANSWER_WIDTH: usize = 5;

#[derive(Clone, Copy, PartialEq, Eq, Debug)]
pub enum Answer {
    Skip,
    Error,
    Leaf(u32),
    List(Range),
    Object { ty: u32, fields: Range },
    Echo(u32),
    Unknown,
}

// It takes several words, so it stays a function: `From` of a tuple is no plainer.
fn answer_of(kind: u32, a: u32, b: u32, c: u32) -> Answer
    ensures { result ≡ answer_of kind a b c }
{
    match kind {
        0 => Answer::Skip,
        1 => Answer::Error,
        2 => Answer::Leaf(a),
        3 => Answer::List(Range { first: a, count: b }),
        4 => Answer::Object {
            ty: a,
            fields: Range { first: b, count: c },
        },
        5 => Answer::Echo(a),
        _ => Answer::Unknown,
    }
}

#[tactic(auto, unfolding(crate::specs::Answers::answer_at))]
pub fn answer_at(answers: &[u32], row: u32) -> Answer
    ensures { result ≡ answer_at answers.now row }
{
    let at = row as usize;
    let kind = cell(answers, ANSWER_WIDTH, at, ANSWER_KIND);
    let a = cell(answers, ANSWER_WIDTH, at, ANSWER_ONE);
    let b = cell(answers, ANSWER_WIDTH, at, ANSWER_TWO);
    let c = cell(answers, ANSWER_WIDTH, at, ANSWER_THREE);
    answer_of(kind, a, b, c)
}

// The name of the field that a child of an object answers.
pub fn answer_name(answers: &[u32], row: u32) -> u32
    ensures { result ≡ answer_name answers.now row }
{
    cell(answers, ANSWER_WIDTH, row as usize, ANSWER_NAME)
}
