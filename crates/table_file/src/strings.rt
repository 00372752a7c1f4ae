// Strings, whose bytes go to the pool.
ghost use Rattle.std.specs.Prelude.{◌≡◌, ◌≤◌, ◌<◌, length, get_or, IfOk};

use crate::fault::Fault;
use crate::scan::{byte_at, ends_token};
use crate::store::Store;

// One byte of a string, and where the next begins.
#[derive(Clone, Copy)]
struct Letter {
    at: usize,
    byte: u8,
}

// The byte that two hexadecimal digits spell.
fn hex_byte(high: u8, low: u8) -> Option<u8> {
    let high = (high as char).to_digit(16)?;
    let low = (low as char).to_digit(16)?;
    Some((high * 16 + low) as u8)
}

// The byte of an escape by two hexadecimal digits, the first of which stands at `from`.
fn hex_escape(text: &[u8], from: usize) -> Result<Letter, Fault>
    requires { from ≤ length text.now }
    ensures { IfOk result (λ letter. (from ≤ letter.at) × (letter.at ≤ length text.now)) }
{
    let [high, low, ..] = &text[from..] else {
        return Err(Fault::UnknownEscape);
    };
    let byte = hex_byte(*high, *low).ok_or(Fault::UnknownEscape)?;
    Ok(Letter { at: from + 2, byte })
}

// The byte that the letter behind a backslash stands for.
fn escaped(b: u8) -> Option<u8> {
    match b {
        b'"' | b'\\' => Some(b),
        b'n' => Some(b'\n'),
        b't' => Some(b'\t'),
        _ => None,
    }
}

// The byte of a string that is written at `at`: as it stands, or by an escape.
fn letter_at(text: &[u8], at: usize) -> Result<Letter, Fault>
    requires { at < length text.now }
    ensures { IfOk result (λ letter. (at < letter.at) × (letter.at ≤ length text.now)) }
{
    let byte = text[at];
    if byte != b'\\' {
        return Ok(Letter { at: at + 1, byte });
    }
    let Some(&kind) = text.get(at + 1) else {
        return Err(Fault::UnknownEscape);
    };
    if kind == b'x' {
        return hex_escape(text, at + 2);
    }
    let byte = escaped(kind).ok_or(Fault::UnknownEscape)?;
    Ok(Letter { at: at + 2, byte })
}

// Behind a string stands a blank, a comment or the line's end.
fn closed(text: &[u8], at: usize) -> Result<usize, Fault>
    ensures { IfOk result (λ end. end ≡ at) }
{
    if ends_token(byte_at(text, at)) {
        Ok(at)
    } else {
        Err(Fault::AfterString)
    }
}

// Appends the bytes of the string whose opening quote stands before `from`, and gives where it ends. A `while`, since a letter is one byte
// of the text, two or four.
pub(crate) fn string(text: &[u8], from: usize, store: &mut Store) -> Result<usize, Fault>
    requires { from ≤ length text.now }
    ensures end { IfOk result (λ end. (from ≤ end) × (end ≤ length text.now)) }
    ensures grows { get_or store.old.filled.sizes 0 0 ≤ get_or store.new.filled.sizes 0 0 }
{
    let mut at = from;
    while at < text.len() {
        match text[at] {
            b'"' => return closed(text, at + 1),
            b'\n' => break,
            _ => {}
        }
        let letter = letter_at(text, at)?;
        store.append_byte(letter.byte)?;
        at = letter.at;
    }
    Err(Fault::StringNotClosed)
}
