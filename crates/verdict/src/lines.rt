// Lines of a text.
ghost use Rattle.std.specs.Prelude.{◌≡◌, ◌==◌, ◌≤◌, length, position};
ghost use Rattle.verdict.specs.Lines.{LineEnd};

// Where the first line feed stands.
pub(crate) fn line_feed(text: &[u8]) -> Option<usize>
    ensures { result ≡ position (λ b. b == 10) text.now }
{
    text.iter().position(|b| *b == b'\n')
}

// Where the line ends that `from` is on.
pub fn line_end(text: &[u8], from: usize) -> usize
    requires { from ≤ length text.now }
    ensures { (from ≤ result) × (result ≤ length text.now) × LineEnd text.now from result }
{
    match line_feed(&text[from..]) {
        Some(passed) => from + passed,
        None => text.len(),
    }
}
