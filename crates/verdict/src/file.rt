// The text of a file, as far as it has room.
ghost use Rattle.std.specs.Prelude.{◌≡◌, ◌≤◌, length, take, replicate, IfOk};

use std::io::Read;
use std::rt::Files;
use std::{fs, str};

// Why a file's text is not read.
#[derive(Clone, Copy, PartialEq, Eq, Debug)]
pub enum Fault {
    CannotBeOpened,
    CannotBeRead,
    TooLarge,
}

// The largest file that is read.
pub const ROOM: usize = 1048576;

pub type Room = [u8; ROOM];

pub fn new_text() -> Room
    ensures { result ≡ replicate 1048576 0 }
{
    [0; ROOM]
}

// Reads until text is full, the file ends or a read fails, and gives how many bytes it put at the start of text. A `while`, since each read
// says how many came.
fn read_full(file: &mut impl Read, text: &mut [u8]) -> usize
    ensures { result ≤ length text.new }
{
    let mut done = 0;
    while done < text.len() {
        match file.read(&mut text[done..]) {
            Ok(0) | Err(_) => break,
            Ok(n) => done += n,
        }
    }
    done
}

// What one more read says, after so many bytes of a file came: the end of the file, more than
// there is room for, or a failure, as of a folder.
fn check_end(file: &mut impl Read, length: usize, room: usize) -> Result<(), Fault> {
    let mut one = [0u8; 1];
    match file.read(&mut one) {
        Ok(0) => Ok(()),
        Ok(_) if length == room => Err(Fault::TooLarge),
        _ => Err(Fault::CannotBeRead),
    }
}

// Puts the file's bytes at the start of text, and gives how many they are. A path is UTF-8.
pub fn read_text(files: &impl Files, path: &[u8], text: &mut Room) -> Result<usize, Fault>
    ensures { IfOk result (λ n. n ≤ 1048576) }
{
    let name = str::from_utf8(path).map_err(|_| Fault::CannotBeOpened)?;
    let mut file = fs::open(files, name).map_err(|_| Fault::CannotBeOpened)?;
    let length = read_full(&mut file, text);
    check_end(&mut file, length, ROOM)?;
    Ok(length)
}

// The first bytes of text, as many as were read.
pub fn bytes(text: &Room, length: usize) -> &[u8]
    ensures { length ≤ 1048576 → result.now ≡ take length text.now }
{
    text.get(..length).unwrap_or(&[])
}
