// What the answers of the resolvers have to obey.
ghost use Rattle.std.specs.Prelude.{◌≡◌};
ghost use Rattle.rows.specs.Answers.{answer_of};
ghost use Rattle.rules.specs.Answers.{answer_lawful, answer_row, answer_parts, answer_names_differ, is_object, root_answer};

use crate::layout::{is_distinct, is_within};
use rows::answers::{ANSWER_WIDTH, Answer, answer_at, answer_name};
use rows::columns::{ANSWER_KIND, ANSWER_NAME, ANSWER_ONE, ANSWER_THREE, ANSWER_TWO};
use rows::layout::{Range, cell};

// Kinds that searches ask for before they read more of a row. `answer_of` of the crate `rows` says what each number is.
pub const LEAF_ANSWER: u32 = 2;

pub const OBJECT_ANSWER: u32 = 4;

// Of an answer's words: the kind, and three by kind.
pub fn answer_is_lawful(
    names: u32,
    nodes: u32,
    answers: u32,
    kind: u32,
    a: u32,
    b: u32,
    c: u32,
) -> bool
    ensures { result ≡ answer_lawful names nodes answers (answer_of kind a b c) }
{
    match kind {
        0 | 1 => true,
        2 => a < nodes,
        3 => is_within(answers, Range { first: a, count: b }),
        4 => (a < names) & is_within(answers, Range { first: b, count: c }),
        5 => a < names,
        _ => false,
    }
}

// `count` is how many answers there are.
pub fn answer_row(names: u32, nodes: u32, count: u32, answers: &[u32], row: u32) -> bool
    ensures { result ≡ answer_row names nodes count answers.now row }
{
    let at = row as usize;
    let kind = cell(answers, ANSWER_WIDTH, at, ANSWER_KIND);
    let a = cell(answers, ANSWER_WIDTH, at, ANSWER_ONE);
    let b = cell(answers, ANSWER_WIDTH, at, ANSWER_TWO);
    let c = cell(answers, ANSWER_WIDTH, at, ANSWER_THREE);
    let lawful = answer_is_lawful(names, nodes, count, kind, a, b, c);
    (answer_name(answers, row) < names) & lawful
}

fn answer_parts(answers: &[u32], answer: Answer) -> bool
    ensures { result ≡ answer_parts answers.now answer }
{
    match answer {
        Answer::Object { fields, .. } => is_distinct(answers, ANSWER_WIDTH, ANSWER_NAME, fields),
        _ => true,
    }
}

pub fn answer_names_differ(answers: &[u32], row: u32) -> bool
    ensures { result ≡ answer_names_differ answers.now row }
{
    answer_parts(answers, answer_at(answers, row))
}

fn is_object(answer: Answer) -> bool
    ensures { result ≡ is_object answer }
{
    matches!(answer, Answer::Object { .. })
}

pub fn root_answer_is_object(answers: &[u32]) -> bool
    ensures { result ≡ root_answer answers.now }
{
    is_object(answer_at(answers, 0))
}
