// Where the cases of a text begin.
ghost use Rattle.std.specs.Prelude.{◌≤◌, ◌<◌, length};

// A case begins with `@` at the start of a line. A row of its tables that begins with `@` has a blank before it.
fn begins_case(text: &[u8], at: usize) -> bool
    requires { at < length text.now }
{
    text[at] == b'@' && (at == 0 || text[at - 1] == b'\n')
}

// The first place from `from` on at which a case begins; the text's end where none does.
pub(crate) fn next_case(text: &[u8], from: usize) -> usize
    requires { from ≤ length text.now }
    ensures { (from ≤ result) × (result ≤ length text.now) }
{
    for at in from..text.len() {
        if begins_case(text, at) {
            return at;
        }
    }
    text.len()
}
