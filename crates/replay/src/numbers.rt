// The numbers of a line.
ghost use Rattle.std.specs.Prelude.{◌≤◌, length};

// The number that these digits spell, of those that have up to nine. `parse` would refuse a longer one.
fn spelled(digits: &[u8]) -> u32 {
    let mut value: u32 = 0;
    for b in digits {
        if value >= 100000000 {
            return value;
        }
        value = value * 10 + (*b as char).to_digit(10).unwrap_or(0);
    }
    value
}

// Puts the numbers of a line at the start of `numbers`, and gives how many there are: as many as it has room for.
pub(crate) fn read_numbers(line: &[u8], numbers: &mut [u32]) -> usize
    ensures { result ≤ length numbers.new }
{
    let mut count = 0;
    for digits in line.split(|b| !b.is_ascii_digit()) {
        if count == numbers.len() {
            return count;
        }
        if !digits.is_empty() {
            numbers[count] = spelled(digits);
            count += 1;
        }
    }
    count
}
