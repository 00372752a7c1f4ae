// Standard output. What it does not take is left, as on a full disk.

pub fn words(out: &impl Print, text: &[u8]) {
    let _ = out.write_all(text);
}

pub fn number(out: &impl Print, n: u64) {
    let _ = out.print(n);
}

// A number with a text before it.
pub fn number_behind(out: &impl Print, text: &[u8], n: u64) {
    words(out, text);
    number(out, n);
}
