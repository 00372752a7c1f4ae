// The fragments visited: a bit for each row, of which there are at most 64.
ghost use Rattle.std.specs.Prelude.{◌≡◌, ◌||◌, ℕ, ◌<◌, eqb};
ghost use Rattle.rows.specs.Limits.{most_fragments};
ghost use Rattle.collecting.specs.Visited.{is_marked};

#[tactic(auto, using(crate::proofs::Bits::mark_read))]
pub fn is_visited(visited: u64, row: u32) -> bool
    requires { row < most_fragments }
    ensures { result ≡ is_marked row visited }
{
    visited & (1u64 << row) != 0
}

#[tactic(auto, using(crate::proofs::Bits::mark_set))]
pub fn with_visited(visited: u64, row: u32) -> u64
    requires { row < most_fragments }
    ensures { (other : ℕ) → is_marked other result ≡ (eqb other row || is_marked other visited) }
{
    visited | (1u64 << row)
}
