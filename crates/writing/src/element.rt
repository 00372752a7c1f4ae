// What a buffer is made of: bytes or words.
ghost use Rattle.std.specs.Prelude.{◌≡◌, ◌+◌, length};

// The position one past a buffer's end is a number only where an element takes room, so each kind of element gives it itself.
pub trait Element: Copy {
    ghost ZERO: { Self };

    const ZERO: Self;

    fn past_end(buffer: &[Self]) -> usize
        ensures { result ≡ length buffer.now + 1 };
}

impl Element for u8 {
    ghost ZERO = { 0 };

    const ZERO: u8 = 0;

    fn past_end(buffer: &[u8]) -> usize {
        buffer.len() + 1
    }
}

impl Element for u32 {
    ghost ZERO = { 0 };

    const ZERO: u32 = 0;

    fn past_end(buffer: &[u32]) -> usize {
        buffer.len() + 1
    }
}
