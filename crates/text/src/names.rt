// The grammar of names (GraphQL October 2021, section 2.1.9).
ghost use Rattle.std.specs.Prelude.{◌≡◌};
ghost use Rattle.text.specs.Names.{NameStart, NameContinue, is_name};

// Small letters have a test of their own, before the others: in one `matches!` the compiler tests from the capitals on, and most
// letters of names are small.
#[tactic(auto, using(std::proofs::lemmas::Bool::Decides::nat_tests), unfolding(crate::specs::Names::NameStart))]
fn is_name_start(c: u8) -> bool
    ensures { result ≡ NameStart c }
{
    matches!(c, b'a'..=b'z') || matches!(c, b'A'..=b'Z' | b'_')
}

#[tactic(auto, using(std::proofs::lemmas::Bool::Decides::nat_tests), unfolding(crate::specs::Names::NameStart, crate::specs::Names::NameContinue))]
fn is_name_continue(c: u8) -> bool
    ensures { result ≡ NameContinue c }
{
    is_name_start(c) || c.is_ascii_digit()
}

// Whether `s` is a Name. How long a name may be is another rule.
pub fn is_name(s: &[u8]) -> bool
    ensures { result ≡ is_name s.now }
{
    match s {
        [first, others @ ..] => {
            is_name_start(*first) && others.iter().all(|c| is_name_continue(*c))
        }
        [] => false,
    }
}
