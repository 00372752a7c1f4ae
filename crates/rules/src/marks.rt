// Marks on numbers: one look tells whether a number was met before.
ghost use Rattle.std.specs.Prelude.{◌≡◌, true, false, not, ◌≤◌, ◌<◌, length, get_or, set, MatchOption};

// Marks the number, and says whether it had no mark yet; nothing of a number that is past the marks.
pub fn mark(marks: &mut [bool], number: u32) -> Option<bool>
    ensures { MatchOption result ((length marks.old ≤ number) × (marks.new ≡ marks.old)) (λ free. (number < length marks.old) × (free ≡ not (get_or marks.old number false)) × (marks.new ≡ set marks.old number true)) }
{
    let at = number as usize;
    if marks.len() <= at {
        return None;
    }
    let free = !marks[at];
    marks[at] = true;
    Some(free)
}
