// A set has a span for each of its groups: 0 while the group is not taken, then one more than the length of its entry. It is a word, and no Option:
// of these a run keeps 33 times 128, and 33 KiB more of stack, and to clear for each run, is what the rule of fixed memory leaves no room for.
ghost use Rattle.std.specs.Prelude.{◌≡◌, ◌+◌, ◌-◌, ◌^◌, ◌≤◌, ◌<◌, min, length};
ghost use Rattle.ordering.specs.Spans.{spans_at, open_at, opens, Clears, Tally, chosen, next_group, past_choice, span_of, entry_start, Turns, Puts};

use writing::place::turn_into_place;

// Before the first turn no group is taken.
pub fn clear_spans(spans: &mut [u64], base: usize, groups: usize)
    requires { base + groups ≤ length spans.old }
    ensures { Clears spans.old base groups spans.new }
{
    spans[base..base + groups].fill(0);
}

// The next choice, below `left`; where there is none left the first group is chosen.
fn choose(choices: &[u32], choice: usize, left: usize) -> usize
    requires { 0 < left }
    ensures { result ≡ chosen choices.now choice left }
{
    match choices.get(choice) {
        Some(chosen) => (*chosen as usize) % left,
        None => 0,
    }
}

pub fn past_choice(choices: &[u32], choice: usize) -> usize
    ensures { result ≡ past_choice choices.now choice }
{
    if choice < choices.len() {
        choice + 1
    } else {
        choice
    }
}

// The group that has `skip` others not taken before it; those before `low` are taken.
fn open_at(spans: &[u64], base: usize, groups: usize, low: usize, skip: usize) -> usize
    requires { (base + groups ≤ length spans.now) × (low ≤ groups) × (opens (spans_at spans.now base low) ≡ 0) × (skip < opens (spans_at spans.now base groups)) }
    ensures { result ≡ open_at (spans_at spans.now base groups) skip }
{
    let mut left = skip;
    for i in low..groups {
        if spans[base + i] == 0 {
            if left == 0 {
                return i;
            }
            left -= 1;
        }
    }
    unreachable!()
}

// The group that the choice picks among those that are not taken. The first `low` are taken, and where they are all that are taken nothing is
// looked for.
pub fn next_group(
    spans: &[u64],
    choices: &[u32],
    base: usize,
    groups: usize,
    low: usize,
    taken: usize,
    choice: usize,
) -> usize
    requires { Tally spans.now base groups low taken }
    ensures { result ≡ next_group spans.now choices.now base groups taken choice }
{
    let skip = choose(choices, choice, groups - taken);
    if low == taken {
        return low + skip;
    }
    open_at(spans, base, groups, low, skip)
}

// Past one more entry, but no further than `at`. It is said by tests: `min` over a sum that saturates takes a third longer over 64 groups, and over
// what is left a sixteenth.
fn past_entry(sum: usize, span: u64, at: usize) -> usize
    requires { sum ≤ at }
    ensures { result ≡ min (sum + (span - 1)) at }
{
    if span == 0 {
        return sum;
    }
    let long = (span - 1) as usize;
    if long < at - sum { sum + long } else { at }
}

// Where the entry of a group begins: behind those of the groups before it. It is written at `at`, and nothing of the set is behind that.
fn entry_start(spans: &[u64], base: usize, group: usize, start: usize, at: usize) -> usize
    requires { base + group ≤ length spans.now }
    ensures { result ≡ entry_start (spans_at spans.now base group) start at }
{
    if at <= start {
        return at;
    }
    let mut sum = start;
    for span in &spans[base..base + group] {
        sum = past_entry(sum, *span, at);
    }
    sum
}

fn span(long: usize, at: usize, end: usize) -> u64
    requires { long < 2 ^ 63 }
    ensures { result ≡ span_of long at end }
{
    if end <= long {
        end.saturating_sub(at) as u64 + 1
    } else {
        1
    }
}

// An entry is in its place where the groups taken are those before it.
fn turn(
    text: &mut [u8],
    spans: &[u64],
    base: usize,
    group: usize,
    low: usize,
    taken: usize,
    start: usize,
    at: usize,
    end: usize,
)
    requires { base + group ≤ length spans.now }
    ensures { Turns text.old spans.now base group low taken start at end text.new }
{
    if low == taken && group == low {
        return;
    }
    turn_into_place(text, entry_start(spans, base, group, start, at), at, end);
}

// An entry that was written last, from `at` to `end`, goes to its place among those that there are; the groups' entries begin at `start`. How many
// are then known to be taken from the first on.
pub fn put_in_place(
    text: &mut [u8],
    spans: &mut [u64],
    base: usize,
    group: usize,
    low: usize,
    taken: usize,
    start: usize,
    at: usize,
    end: usize,
) -> usize
    requires { base + group < length spans.old }
    ensures { Puts text.old spans.old base group low taken start at end result text.new spans.new }
{
    let own = span(text.len(), at, end);
    turn(text, spans, base, group, low, taken, start, at, end);
    spans[base + group] = own;
    if group == low { low + 1 } else { low }
}
