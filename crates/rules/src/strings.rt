// Strings: parts of the byte pool.
ghost use Rattle.std.specs.Prelude.{◌≡◌, true, List, ℕ};
ghost use Rattle.text.specs.Utf8.{is_utf8};
ghost use Rattle.rules.specs.Strings.{in_pool, is_string, is_float_text};

use rows::strings::{Text, text_of};
use std::marker::Model;
use text::utf8::{is_part_utf8, is_utf8};

pub(crate) fn is_in_pool(pool: &[u8], text: Text) -> bool
    ensures { result ≡ in_pool pool.now text }
{
    let end = (text.start as usize) + (text.len as usize);
    end <= pool.len()
}

// The byte pool, and whether it is known to be UTF-8 as a whole. Contracts see its bytes.
#[derive(Drop)]
pub struct Pool<'a> {
    bytes: &'a [u8],
    whole: bool,
}

impl<'a> Model for Pool<'a> {
    ghost Value = { List ℕ };

    ghost view = { λ pool. pool.bytes.now };

    ghost invariant = { λ pool. pool.whole ≡ true → is_utf8 pool.bytes.now ≡ true };
}

impl<'a> Pool<'a> {
    // Of which nothing is known.
    pub fn new(bytes: &'a [u8]) -> Self
        ensures { result ≡ bytes.now }
    {
        Pool {
            bytes,
            whole: false,
        }
    }

    // Known to be UTF-8 as a whole where `whole` says so, for a caller that knows it without a look.
    pub fn known(bytes: &'a [u8], whole: bool) -> Self
        requires { whole ≡ true → is_utf8 bytes.now ≡ true }
        ensures { result ≡ bytes.now }
    {
        Pool { bytes, whole }
    }

    // Looked at as a whole first.
    pub fn read(bytes: &'a [u8]) -> Self
        ensures { result ≡ bytes.now }
    {
        let whole = is_utf8(bytes);
        Self::known(bytes, whole)
    }

    pub fn bytes(&self) -> &'a [u8]
        ensures { result.now ≡ self.now }
    {
        self.bytes
    }
}

// Where the pool is known to be UTF-8 as a whole, a string's two ends say whether it is.
pub fn is_string(pool: &Pool, text: Text) -> bool
    ensures { result ≡ is_string pool.now text }
{
    let bytes = pool.bytes;
    let start = text.start as usize;
    let end = start + (text.len as usize);
    if bytes.len() < end {
        return false;
    }
    if pool.whole {
        return is_part_utf8(bytes, start, end);
    }
    is_utf8(&bytes[start..end])
}

pub(crate) fn is_float_text(pool: &Pool, text: Text) -> bool
    ensures { result ≡ is_float_text pool.now text }
{
    let bytes = pool.bytes;
    is_in_pool(bytes, text) & text::numbers::is_float(text_of(bytes, text))
}
