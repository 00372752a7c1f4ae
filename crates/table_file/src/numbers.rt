// Decimal numbers.
ghost use Rattle.std.specs.Prelude.{◌≡◌};
ghost use Rattle.table_file.specs.Decimals.{decimal_of, word_of};

use crate::fault::Fault;

// The number that a token spells. `parse` would take a sign too.
pub(crate) fn decimal(token: &[u8]) -> Result<u64, Fault>
    ensures { result ≡ decimal_of token.now }
{
    if token.is_empty() {
        return Err(Fault::NotANumber);
    }
    let mut value: u64 = 0;
    for b in token {
        let digit = (*b as char).to_digit(10).ok_or(Fault::NotANumber)?;
        let tens = value.checked_mul(10).ok_or(Fault::NumberTooLarge)?;
        value = tens.checked_add(digit as u64).ok_or(Fault::NumberTooLarge)?;
    }
    Ok(value)
}

// The same, of a number that is a word.
pub fn word_number(token: &[u8]) -> Result<u32, Fault>
    ensures { result ≡ word_of token.now }
{
    u32::try_from(decimal(token)?).map_err(|_| Fault::NumberTooLarge)
}
