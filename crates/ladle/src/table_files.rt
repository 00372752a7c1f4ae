// One table file: its answer, or why it is none.
use crate::explain::print_broken_rules;
use crate::faults::{file_sentence, print_fault};
use std::rt::Files;
use table_file::layout::{self, Pool, Sizes, Words};
use table_file::{Held, NoTableFile};
use tables::check::UNLAWFUL;
use telling::print::print_run;
use verdict::words::print_depth;
use verdict::{entries, file, say};

// What is asked about a file's tables, by the verb before it. It stays an enum: a function in its place would be chosen by the same match.
#[derive(Clone, Copy, PartialEq, Eq, Debug)]
pub enum Question {
    Check,
    Depth,
    Run,
    // A run, for a script.
    RawRun,
}

// A table file that was read: its text, and what it holds. No heap is used, so the pool and the words are lent.
#[derive(Drop)]
pub(crate) struct TableFile<'a> {
    pub text: &'a [u8],
    pub pool: &'a mut Pool,
    pub words: &'a mut Words,
    pub sizes: Sizes,
}

impl<'a> TableFile<'a> {
    pub(crate) fn held(&self) -> Held<'_> {
        let sizes = self.sizes;
        Held {
            pool: &self.pool[..],
            words: &self.words[..],
            sizes,
        }
    }
}

// Prints the answer, and gives its code.
fn print_answer(out: &impl Print, question: Question, held: &Held, choices: &[u32]) -> u32 {
    match question {
        Question::Check => {
            let code = entries::code(held);
            let _ = out.println(code);
            code
        }
        Question::Depth => {
            let answer = entries::depth(held);
            let code = answer.code;
            print_depth(out, answer);
            say::words(out, b"\n");
            code
        }
        Question::Run => print_run(out, held, choices, false),
        Question::RawRun => print_run(out, held, choices, true),
    }
}

// Where and why a text is no table file.
fn print_no_table_file(out: &impl Print, path: &[u8], no: NoTableFile, token: &[u8]) {
    let line = no.line;
    say::words(out, path);
    let _ = print!(out; ":{line}: ");
    print_fault(out, no.fault, token);
    say::words(out, b"\n");
}

// The answer for a text's tables, and under it what is wrong where they are not lawful. A script is told no more than the code.
fn answer_text(
    out: &impl Print,
    question: Question,
    path: &[u8],
    is_one_of_several: bool,
    choices: &[u32],
    text: &[u8],
) {
    let mut pool = layout::new_pool();
    let mut words = layout::new_words();
    let contents = match table_file::read(text, &mut pool, &mut words) {
        Ok(contents) => contents,
        Err(no) => {
            print_no_table_file(out, path, no, &text[no.from..no.to]);
            return;
        }
    };
    if is_one_of_several {
        say::words(out, path);
        say::words(out, b": ");
    }
    let sizes = contents.sizes;
    let mut read = TableFile {
        text,
        pool: &mut pool,
        words: &mut words,
        sizes,
    };
    let code = print_answer(out, question, &read.held(), choices);
    if code == UNLAWFUL && question != Question::RawRun {
        print_broken_rules(out, &mut read);
    }
}

pub(crate) fn answer(
    rt: &(impl Print + Files),
    question: Question,
    path: &[u8],
    is_one_of_several: bool,
    choices: &[u32],
) {
    let mut text = file::new_text();
    match file::read_text(rt, path, &mut text) {
        Ok(length) => answer_text(
            rt,
            question,
            path,
            is_one_of_several,
            choices,
            file::bytes(&text, length),
        ),
        Err(why) => {
            let why = file_sentence(why);
            say::words(rt, path);
            let _ = println!(rt; ": {why}");
        }
    }
}
