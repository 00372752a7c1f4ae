// The choices of an order, as `3,1,2`.
ghost use Rattle.std.specs.Prelude.{◌≤◌, length, IfSome};

use table_file::word_number;

// Puts the choices at the start of `choices`, and gives how many there are, if the text is a list of numbers and short enough.
pub fn read_choices(text: &[u8], choices: &mut [u32]) -> Option<usize>
    ensures { IfSome result (λ count. count ≤ length choices.new) }
{
    let mut count = 0;
    for number in text.split(|b| *b == b',') {
        let Ok(choice) = word_number(number) else {
            return None;
        };
        if count == choices.len() {
            return None;
        }
        choices[count] = choice;
        count += 1;
    }
    Some(count)
}
