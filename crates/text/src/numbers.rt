// The spelling of a float: a number of RFC 8259, section 6, that has a fraction or an exponent.
// Each function looks for one part of the grammar at the beginning of a text and gives what stands behind it, if it is there.
ghost use Rattle.std.specs.Prelude.{◌≡◌, option_copied};
ghost use Rattle.text.specs.Numbers.{minus, sign, digits, digits1, int, frac, exp, frac_or_exp, is_float};
ghost use Rattle.text.specs.Grammar.{optional};

// Past all the digits. A `while let`: at its end it is known whether an octet is left, which a position in the text does not tell.
#[tactic(auto, using(std::proofs::lemmas::Bool::Decides::nat_tests, crate::proofs::numbers::Parts::digit_passed, crate::proofs::numbers::Parts::digits_stop, crate::proofs::numbers::Parts::digits_over))]
fn past_digits(s: &[u8]) -> &[u8]
    ensures { result.now ≡ digits s.now }
{
    let mut rest = s;
    while let [b'0'..=b'9', others @ ..] = rest {
        rest = others;
    }
    rest
}

// One or more digits.
#[tactic(auto, using(std::proofs::lemmas::Bool::Decides::nat_tests, crate::proofs::numbers::Parts::digits1_there, crate::proofs::numbers::Parts::digits1_other, crate::proofs::numbers::Parts::digits1_empty))]
fn find_digits(s: &[u8]) -> Option<&[u8]>
    ensures { option_copied result ≡ digits1 s.now }
{
    match s {
        [b'0'..=b'9', others @ ..] => Some(past_digits(others)),
        _ => None,
    }
}

#[tactic(auto, using(std::proofs::lemmas::Bool::Decides::nat_tests, crate::proofs::numbers::Parts::minus_there, crate::proofs::numbers::Parts::minus_other, crate::proofs::numbers::Parts::minus_empty))]
fn past_minus(s: &[u8]) -> &[u8]
    ensures { result.now ≡ optional minus s.now }
{
    match s {
        [b'-', past @ ..] => past,
        _ => s,
    }
}

#[tactic(auto, using(std::proofs::lemmas::Bool::Decides::nat_tests, crate::proofs::numbers::Parts::zero_there, crate::proofs::numbers::Parts::zero_other, crate::proofs::numbers::Parts::zero_empty))]
fn find_int(s: &[u8]) -> Option<&[u8]>
    ensures { option_copied result ≡ int s.now }
{
    match s {
        [b'0', past @ ..] => Some(past),
        _ => find_digits(s),
    }
}

#[tactic(auto, using(std::proofs::lemmas::Bool::Decides::nat_tests, crate::proofs::numbers::Parts::frac_there, crate::proofs::numbers::Parts::frac_other, crate::proofs::numbers::Parts::frac_empty))]
fn find_frac(s: &[u8]) -> Option<&[u8]>
    ensures { option_copied result ≡ frac s.now }
{
    match s {
        [b'.', past @ ..] => find_digits(past),
        _ => None,
    }
}

#[tactic(auto, using(std::proofs::lemmas::Bool::Decides::nat_tests, crate::proofs::numbers::Parts::sign_there, crate::proofs::numbers::Parts::sign_other, crate::proofs::numbers::Parts::sign_empty))]
fn past_sign(s: &[u8]) -> &[u8]
    ensures { result.now ≡ optional sign s.now }
{
    match s {
        [b'-' | b'+', past @ ..] => past,
        _ => s,
    }
}

#[tactic(auto, using(std::proofs::lemmas::Bool::Decides::nat_tests, crate::proofs::numbers::Parts::exp_there, crate::proofs::numbers::Parts::exp_other, crate::proofs::numbers::Parts::exp_empty))]
fn find_exp(s: &[u8]) -> Option<&[u8]>
    ensures { option_copied result ≡ exp s.now }
{
    match s {
        [b'e' | b'E', past @ ..] => find_digits(past_sign(past)),
        _ => None,
    }
}

// Whether the text is a fraction, an exponent or both, and nothing more: one of them is there where nothing is left of a text that
// was not empty.
fn is_frac_or_exp(s: &[u8]) -> bool
    ensures { result ≡ frac_or_exp s.now }
{
    let past = find_frac(s).unwrap_or(s);
    let end = find_exp(past).unwrap_or(past);
    end.is_empty() && !s.is_empty()
}

// Whether `s` is a number with a fraction or an exponent.
pub fn is_float(s: &[u8]) -> bool
    ensures { result ≡ is_float s.now }
{
    find_int(past_minus(s)).is_some_and(is_frac_or_exp)
}
