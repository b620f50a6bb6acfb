// Shows for each line of standard input, a rule and a slip with a tab between them, how the rule matches the slip.
#![tactic(auto)]

// Of a line one byte more is kept than it may have: with more it is too long whatever they are (`cut_same` of print_matches'
// proofs/Lengths).
const LINE: usize = base_limits::SLIP_LINE + 1;

struct Matches;

impl line_io::Answers for Matches {
    fn answer(&self, k: u64, line: &[u8], text: &mut [u8]) -> Option<usize> {
        print_matches::match_answer(k, line, text).ok()
    }
}

// The text's bytes are enough for any answer.
fn main(rt: HostRuntime) {
    let mut line = [0u8; LINE];
    let mut text = [0u8; print_matches::LONGEST_ANSWER];
    line_io::answer_lines(
        &mut rt.stdin(),
        &mut rt.stdout(),
        &mut rt.stderr(),
        &Matches,
        &mut line,
        &mut text,
    );
}
