// What a run hands back: its counts, and two buffers with nothing else in them.
ghost use Rattle.std.specs.Prelude.{◌≤◌, length};
ghost use Rattle.rows.specs.Limits.{most_text_bytes, most_error_words};
ghost use Rattle.graphql.specs.Report.{refused, Reports};
ghost use Rattle.running.specs.Reporting.{Counts, ReportsWritten, ReportsEnd};

use codes::outcome::Outcome;
use codes::report::Reported;
use tokens::json::put_null;
use walking::state::{Done, Failure};
use writing::place::clear;

// A code, whichever it is, and nothing but zeros.
pub fn refuse(text: &mut [u8], errors: &mut [u32], code: u32) -> Reported
    ensures { Reports (length text.old) (length errors.old) (refused code) result text.new errors.new }
{
    clear(text, 0);
    clear(errors, 0);
    Reported {
        code,
        bytes: 0,
        words: 0,
        records: 0,
    }
}

// How many records there are in so many words. A `while`, since each record says how long its path is.
fn record_count(errors: &[u32], words: usize) -> u32
    requires { (words ≤ length errors.now) × (length errors.now ≤ most_error_words) }
    ensures { Counts errors.now words result }
{
    let mut count: u32 = 0;
    let mut at: usize = 0;
    while at + 2 < words {
        let segments = errors[at + 2] as usize;
        at = at + 3 + 2 * segments;
        count += 1;
    }
    count
}

// "then 6, then 7": the final text against its buffer, then the records against theirs.
fn report(text: &mut [u8], errors: &mut [u32], at: usize, errs: usize) -> Reported
    requires { (length text.old ≤ most_text_bytes) × (length errors.old ≤ most_error_words) }
    ensures { ReportsWritten text.old errors.old at errs result text.new errors.new }
{
    if text.len() < at {
        return refuse(text, errors, Outcome::TextTooLong.code());
    }
    if errors.len() < errs {
        return refuse(text, errors, Outcome::RecordsTooLong.code());
    }
    clear(text, at);
    clear(errors, errs);
    Reported {
        code: Outcome::Answered.code(),
        bytes: at as u32,
        words: errs as u32,
        records: record_count(errors, errs),
    }
}

// "Failure at the root makes the data text `null`."
pub fn report_end(text: &mut [u8], errors: &mut [u32], d: Done) -> Reported
    requires { (length text.old ≤ most_text_bytes) × (length errors.old ≤ most_error_words) }
    ensures { ReportsEnd text.old errors.old d result text.new errors.new }
{
    let state = d.state;
    let what = d.what;
    let Err(failure) = what else {
        return report(text, errors, state.at, state.errs);
    };
    if let Failure::Stop(code) = failure {
        return refuse(text, errors, code);
    }
    let at = put_null(text, 0);
    report(text, errors, at, state.errs)
}
