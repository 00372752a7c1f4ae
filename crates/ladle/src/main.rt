// ladle check FILE..: whether the tables of a table file are lawful, and if not, why not.
// ladle depth FILE..: how deep its operation goes.
// ladle run FILE..: what the operation is answered.
#![tactic(auto)]

mod about;
mod arguments;
mod explain;
mod faults;
mod help;
mod mending;
mod sentences;
mod table_files;

use arguments::{Word, begins_with_verb, file_count, word_at};
use rows::limits::MOST_CHOICES;
use std::rt::{Env, Files};
use table_files::Question;
use telling::choices::read_choices;
use telling::records::first;
use verdict::arguments::{PATH_BYTES, count as argument_count, put};
use verdict::say;

// The most bytes of an argument that lists choices.
const LIST_BYTES: usize = 65536;

fn answer_file(
    rt: &(impl Print + Env + Files),
    number: usize,
    is_one_of_several: bool,
    question: Question,
    choices: &[u32],
) {
    // No heap: a buffer of a fixed size, as for the list below and for the choices.
    let mut path = [0u8; PATH_BYTES];
    let Ok(n) = rt.arg(number, &mut path) else {
        say::words(rt, b"a file's name is longer than a path may be\n");
        return;
    };
    table_files::answer(rt, question, &path[..n], is_one_of_several, choices);
}

// How many choices an argument lists, if it lists any.
fn order_at(env: &impl Env, number: usize, choices: &mut [u32]) -> Option<usize> {
    let mut list = [0u8; LIST_BYTES];
    let n = put(env, number, &mut list);
    read_choices(&list[..n], choices)
}

// Takes the arguments one by one. A run begins with no choices, and keeps those that it was given.
fn answer_arguments(
    rt: &(impl Print + Env + Files),
    count: usize,
    is_one_of_several: bool,
    choices: &mut [u32],
) {
    let mut given: usize = 0;
    let mut question = Question::Check;
    for number in 1..count {
        match word_at(rt, number) {
            Word::Check => question = Question::Check,
            Word::Depth => question = Question::Depth,
            Word::Run => {
                question = Question::Run;
                given = 0;
            }
            Word::Raw => question = Question::RawRun,
            Word::Order => {}
            Word::Choices => {
                let Some(listed) = order_at(rt, number, choices) else {
                    say::words(
                        rt,
                        b"--order takes up to 4,096 numbers with commas between them, as 3,1,2\n",
                    );
                    return;
                };
                given = listed;
            }
            Word::File => answer_file(
                rt,
                number,
                is_one_of_several,
                question,
                first(choices, given),
            ),
        }
    }
}

fn main(rt: HostRuntime) {
    let count = argument_count(&rt);
    let files = file_count(&rt, count);
    if files == 0 || !begins_with_verb(&rt) {
        help::print(&rt);
        return;
    }
    let mut choices = [0u32; MOST_CHOICES];
    answer_arguments(&rt, count, files > 1, &mut choices);
}
