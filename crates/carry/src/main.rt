// Shows for each line of standard input, a rule and a slip with a tab between them, what carrying out the rule on the slip answers.
#![tactic(auto)]

// Of a line one byte more is kept than it may have: with more it is too long whatever they are (`cut_same` of print_carry's
// proofs/Lengths).
const LINE: usize = base_limits::SLIP_LINE + 1;

struct Carry;

impl line_io::Answers for Carry {
    fn answer(&self, k: u64, line: &[u8], text: &mut [u8]) -> Option<usize> {
        print_carry::carry_answer(k, line, text).ok()
    }
}

// The text has room for any answer: none has more bytes (`carry_answer` ensures it).
fn main(rt: HostRuntime) {
    let mut line = [0u8; LINE];
    let mut text = [0u8; print_carry::LONGEST_ANSWER];
    line_io::answer_lines(
        &mut rt.stdin(),
        &mut rt.stdout(),
        &mut rt.stderr(),
        &Carry,
        &mut line,
        &mut text,
    );
}
