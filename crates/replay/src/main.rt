// Replays recorded cases: for each case of a file its label, and the answer of a depth check or of a run.
//
// A case is a line `@ LABEL` and then a table file. Where a line `?` with numbers stands between them, a run is asked for: with a text
// buffer of so many bytes, an error buffer of so many words, and these choices. What stands in a file before its first case stands in front
// of every case's table file.
#![tactic(auto)]

mod cases;
mod numbers;
mod runs;

ghost use Rattle.std.specs.Prelude.{◌≤◌, length};

use cases::next_case;
use numbers::read_numbers;
use runs::answer_run;
use std::rt::{Env, Files};
use table_file::{Held, layout};
use verdict::arguments::{PATH_BYTES, count as argument_count};
use verdict::lines::line_end;
use verdict::words::print_depth;
use verdict::{entries, file, say};
use writing::write::put_all;

// A text as a table file. Nothing asked is a depth check. The pool and the words stand at the head of a function of their own: behind the text of
// `answer_tables` the compiler clears them twice, 1.4 million bytes a case, which took a third more time.
fn answer_text(out: &impl Print, text: &[u8], asked: &[u32]) {
    let mut pool = layout::new_pool();
    let mut words = layout::new_words();
    let contents = match table_file::read(text, &mut pool, &mut words) {
        Ok(contents) => contents,
        Err(no) => {
            let line = no.line;
            let _ = print!(out; "is no table file: line {line}");
            return;
        }
    };
    let sizes = contents.sizes;
    let held = Held {
        pool: &pool,
        words: &words,
        sizes,
    };
    if asked.is_empty() {
        print_depth(out, entries::depth(&held));
    } else {
        answer_run(out, &held, asked);
    }
}

// Two texts as one table file.
fn answer_tables(out: &impl Print, shared: &[u8], own: &[u8], asked: &[u32]) {
    let mut text = file::new_text();
    let at = put_all(&mut text, 0, shared);
    let length = put_all(&mut text, at, own);
    answer_text(out, file::bytes(&text, length), asked);
}

// What stands behind `@ ` on a case's first line.
fn label(line: &[u8]) -> &[u8] {
    line.get(2..).unwrap_or(line)
}

// Where the line ends that asks for a run, behind the line that ends at `end`; `end` where there is none.
fn question_end(case: &[u8], end: usize) -> usize
    requires { end ≤ length case.now }
    ensures { (end ≤ result) × (result ≤ length case.now) }
{
    if let [_, b'?', ..] = &case[end..] {
        line_end(case, end + 1)
    } else {
        end
    }
}

fn answer_case(out: &impl Print, shared: &[u8], case: &[u8]) {
    let end = line_end(case, 0);
    say::words(out, label(&case[..end]));
    say::words(out, b": ");
    let below = question_end(case, end);
    // No heap: a buffer of a fixed size, with room for two sizes and all choices.
    let mut numbers = [0u32; 4352];
    let count = read_numbers(&case[end..below], &mut numbers);
    answer_tables(out, shared, &case[below..], &numbers[..count]);
    say::words(out, b"\n");
}

// One by one, by a `while`: each case ends where the next begins.
fn replay(out: &impl Print, text: &[u8]) {
    let first = next_case(text, 0);
    let mut at = first;
    while at < text.len() {
        let next = next_case(text, at + 1);
        answer_case(out, &text[..first], &text[at..next]);
        at = next;
    }
}

fn replay_argument(rt: &(impl Print + Env + Files), number: usize) {
    let mut path = [0u8; PATH_BYTES];
    let Ok(n) = rt.arg(number, &mut path) else {
        say::words(rt, b"a file's name is longer than a path may be\n");
        return;
    };
    let mut text = file::new_text();
    match file::read_text(rt, &path[..n], &mut text) {
        Ok(length) => replay(rt, file::bytes(&text, length)),
        Err(_) => {
            say::words(rt, &path[..n]);
            say::words(rt, b" cannot be read\n");
        }
    }
}

fn main(rt: HostRuntime) {
    let count = argument_count(&rt);
    for number in 1..count {
        replay_argument(&rt, number);
    }
}
