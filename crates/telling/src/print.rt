// A run's report on standard output. What it does not take is left, as on a full disk.
ghost use Rattle.std.specs.Prelude.{◌≡◌};
ghost use Rattle.graphql.specs.Report.{report};
ghost use Rattle.verdict.specs.Held.{tables_held};

use crate::lines::put_path;
use crate::records::{first, record_end, word_at};
use crate::{records, sentences};
use codes::outcome::Outcome;
use rows::limits::{MOST_ERROR_WORDS, MOST_TEXT_BYTES};
use rows::tables::Tables;
use table_file::Held;
use verdict::runs::run_by_choices;
use verdict::say;

// As many bytes of an error's path are told.
const PATH_BYTES: usize = 4096;

// The line of an error: its path, what is wrong in words and by its code, and the place.
fn print_error(out: &impl Print, tables: &Tables, error: &[u32]) {
    // No heap: a buffer of a fixed size.
    let mut path = [0u8; PATH_BYTES];
    let length = put_path(&mut path, tables, records::segments(error));
    let code = word_at(error, records::CODE);
    let place = word_at(error, records::PLACE);
    let wrong = sentences::field_error(code);
    say::words(out, b"  ");
    say::words(out, first(&path, length));
    let _ = println!(out; ": {wrong} ({code}), at {place}");
}

// A `while`, since each record says where the next begins.
fn print_errors(out: &impl Print, tables: &Tables, errors: &[u32]) {
    let mut rest = errors;
    while !rest.is_empty() {
        let (record, behind) = rest.split_at(record_end(rest, 0));
        print_error(out, tables, record);
        rest = behind;
    }
}

// Words with blanks between them.
fn print_words(out: &impl Print, words: &[u32]) {
    for (i, word) in words.iter().enumerate() {
        if i > 0 {
            say::words(out, b" ");
        }
        let _ = out.print(*word);
    }
}

// For a script, in three lines: the code and the counts of bytes, words and records; the text; the words.
fn print_raw(out: &impl Print, code: u32, records: u32, text: &[u8], errors: &[u32]) {
    let bytes = text.len();
    let words = errors.len();
    let _ = println!(out; "{code} {bytes} {words} {records}");
    say::words(out, text);
    say::words(out, b"\n");
    print_words(out, errors);
    say::words(out, b"\n");
}

// For a person: the data and under it the errors, or why there is no data.
fn print_told(out: &impl Print, code: u32, text: &[u8], errors: &[u32], tables: &Tables) {
    if code != Outcome::Answered.code() {
        let why = sentences::refusal(code);
        let _ = println!(out; "{code}: {why}");
        return;
    }
    say::words(out, text);
    say::words(out, b"\n");
    print_errors(out, tables, errors);
}

// Runs what a table file holds, prints the report and gives its code. `is_raw` chooses one of two forms: as a closure it would be chosen by the same test.
pub fn print_run(out: &impl Print, held: &Held, choices: &[u32], is_raw: bool) -> u32
    ensures { result ≡ (report (record { tables = tables_held held.now }) 65536 16384 choices.now).code }
{
    // No heap: two buffers of a fixed size, and in `reported` how much of each is filled.
    let mut text = [0u8; MOST_TEXT_BYTES];
    let mut errors = [0u32; MOST_ERROR_WORDS];
    let reported = run_by_choices(held, choices, &mut text, &mut errors);
    let data = first(&text, reported.bytes as usize);
    let records = first(&errors, reported.words as usize);
    if is_raw {
        print_raw(out, reported.code, reported.records, data, records);
    } else {
        print_told(out, reported.code, data, records, &held.tables());
    }
    reported.code
}
