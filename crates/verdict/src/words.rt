// Answers as the programs print them.
use crate::say;
use codes::outcome::Outcome;
use introspection::max_depth::DepthAnswer;

// The depth check's code, and behind it the depth, or the place at which the operation is too deep.
pub fn print_depth(out: &impl Print, answer: DepthAnswer) {
    let code = answer.code;
    let answered = Outcome::Answered;
    let too_deep = Outcome::TooDeep;
    say::number(out, code as u64);
    if code == answered.code() {
        say::number_behind(out, b" depth ", answer.depth as u64);
    } else if code == too_deep.code() {
        say::number_behind(out, b" place ", answer.place as u64);
    }
}
