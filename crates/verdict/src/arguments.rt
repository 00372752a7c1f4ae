// The words of the command line.
ghost use Rattle.std.specs.Prelude.{◌≤◌, length};

use std::env::FillError;
use std::rt::Env;

// The most bytes that a path has.
pub const PATH_BYTES: usize = 4096;

// How many there are, the program's own name among them.
pub fn count(env: &impl Env) -> usize {
    let mut none = [0u8; 0];
    for number in 0..usize::MAX {
        if let Err(FillError::NotPresent) = env.arg(number, &mut none) {
            return number;
        }
    }
    usize::MAX
}

// Puts the argument of this number at the start of buf, and gives its length; 0 where it is missing or longer than buf. No Option: both callers take a
// missing word for an empty one.
pub fn put(env: &impl Env, number: usize, buf: &mut [u8]) -> usize
    ensures { result ≤ length buf.new }
{
    match env.arg(number, buf) {
        Ok(n) => n,
        Err(_) => 0,
    }
}
