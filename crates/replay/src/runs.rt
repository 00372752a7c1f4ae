// A run, asked of both entries.
use table_file::Held;
use verdict::answers::print_run;
use verdict::runs::{run_by_choices, run_in_order};
use verdict::say;

// Buffers one larger than a run takes: what is refused can be asked too. No heap: their sizes are fixed.
pub const TEXT_BYTES: usize = 65537;

pub const ERROR_WORDS: usize = 16385;

// The two buffers of a run.
#[derive(Drop)]
struct Buffers<'a> {
    text: &'a mut [u8],
    errors: &'a mut [u32],
}

// Where there are no choices, the run in document order has to leave the same in both its buffers, which held something else before. If
// it does not, its answer is printed too.
fn ask(out: &impl Print, held: &Held, choices: &[u32], buffers: Buffers, others: Buffers) {
    let Buffers { text, errors } = buffers;
    let tables = held.tables();
    let run = run_by_choices(held, choices, text, errors);
    print_run(out, &tables, text, errors, run, true);
    if !choices.is_empty() {
        return;
    }
    let Buffers {
        text: other_text,
        errors: other_errors,
    } = others;
    let other = run_in_order(held, other_text, other_errors);
    if other == run && &other_text[..] == &text[..] && &other_errors[..] == &errors[..] {
        return;
    }
    say::words(out, b", in document order ");
    print_run(out, &tables, other_text, other_errors, other, true);
}

// What is asked: how many bytes of text and words of errors there is room for, and the choices.
pub(crate) fn answer_run(out: &impl Print, held: &Held, asked: &[u32]) {
    let [bytes, most, choices @ ..] = asked else {
        say::words(out, b"has no two buffers");
        return;
    };
    let bytes = TEXT_BYTES.min(*bytes as usize);
    let most = ERROR_WORDS.min(*most as usize);
    let mut text = [255u8; TEXT_BYTES];
    let mut errors = [255u32; ERROR_WORDS];
    let mut other_text = [0u8; TEXT_BYTES];
    let mut other_errors = [0u32; ERROR_WORDS];
    let buffers = Buffers {
        text: &mut text[..bytes],
        errors: &mut errors[..most],
    };
    let others = Buffers {
        text: &mut other_text[..bytes],
        errors: &mut other_errors[..most],
    };
    ask(out, held, choices, buffers, others);
}
