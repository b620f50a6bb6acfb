// Shows for each line of standard input, two rules with a tab between them, the overlaps of the rules.
#![tactic(auto)]

// Of a line one byte more is kept than it may have: with more it is too long whatever they are (`cut_same` of print_pairs'
// proofs/Lengths).
const LINE: usize = base_limits::PAIR_LINE + 1;

struct Pairs;

impl line_io::Answers for Pairs {
    fn answer(&self, k: u64, line: &[u8], text: &mut [u8]) -> Option<usize> {
        print_pairs::pair_answer(k, line, text).ok()
    }
}

// The text has room for any answer: none has more bytes (`pair_answer` ensures it).
fn main(rt: HostRuntime) {
    let mut line = [0u8; LINE];
    let mut text = [0u8; print_pairs::LONGEST_ANSWER];
    line_io::answer_lines(
        &mut rt.stdin(),
        &mut rt.stdout(),
        &mut rt.stderr(),
        &Pairs,
        &mut line,
        &mut text,
    );
}
