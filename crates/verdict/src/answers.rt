// A run's answer on one line, as document 01's cases have it: code, data or `-`, and each error as code and path.
ghost use Rattle.std.specs.Prelude.{◌≡◌, ◌≤◌, ◌<◌, ◌-◌, length};

use crate::say;
use codes::outcome::Outcome;
use codes::report::Reported;
use rows::names::name_text;
use rows::tables::Tables;

// A segment of a path is a name or an index.
fn print_segment(out: &impl Print, tables: &Tables, kind: u32, value: u32) {
    if kind == 0 {
        say::words(out, name_text(tables.pool, tables.names, value));
    } else {
        say::number(out, value as u64);
    }
}

// A segment is two words.
fn print_path(out: &impl Print, tables: &Tables, path: &[u32]) {
    for (number, segment) in path.chunks_exact(2).enumerate() {
        if number > 0 {
            say::words(out, b".");
        }
        if let [kind, value] = segment {
            print_segment(out, tables, *kind, *value);
        }
    }
}

// How many words the record has that begins there: three, and two a segment.
fn record_size(errors: &[u32]) -> usize
    requires { 0 < length errors.now }
    ensures { (0 < result) × (result ≤ length errors.now) }
{
    let [_, _, segments, rest @ ..] = errors else {
        return errors.len();
    };
    let segments = *segments as usize;
    if segments > rest.len() / 2 {
        return errors.len();
    }
    3 + 2 * segments
}

fn print_record(out: &impl Print, tables: &Tables, record: &[u32], with_places: bool) {
    let [code, place, _, path @ ..] = record else {
        return;
    };
    say::number_behind(out, b" ", *code as u64);
    say::words(out, b":");
    print_path(out, tables, path);
    if with_places {
        say::number_behind(out, b"@", *place as u64);
    }
}

// Prints the records, and gives how many there are. A `while`, since each record says where the next begins.
fn print_records(out: &impl Print, tables: &Tables, errors: &[u32], with_places: bool) -> usize {
    let mut count: usize = 0;
    let mut rest = errors;
    while !rest.is_empty() {
        let (record, behind) = rest.split_at(record_size(rest));
        print_record(out, tables, record, with_places);
        rest = behind;
        count += 1;
    }
    count
}

// With `@` and its place behind each error on request. A count of records that is another than that of those printed is said.
pub fn print_run(
    out: &impl Print,
    tables: &Tables,
    text: &[u8],
    errors: &[u32],
    run: Reported,
    with_places: bool,
) {
    let answered = Outcome::Answered;
    say::number(out, run.code as u64);
    say::words(out, b" ");
    if run.code != answered.code() {
        say::words(out, b"-");
        return;
    }
    let bytes = text.len().min(run.bytes as usize);
    let words = errors.len().min(run.words as usize);
    say::words(out, &text[..bytes]);
    let printed = print_records(out, tables, &errors[..words], with_places);
    if printed != run.records as usize {
        say::number_behind(out, b" counted ", run.records as u64);
    }
}
