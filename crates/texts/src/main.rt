// Shows how each line of standard input is read: as a rule, and as a slip.
#![tactic(auto)]

// Of a line one byte more is kept than a slip may have: with more it is refused by 1 whatever they are (`cut_same` of print_texts'
// proofs/Lengths).
const LINE: usize = base_limits::MOST_SLIP_BYTES + 1;

// No answer has more bytes (`texts_short` of print_texts' proofs/Lengths).
const TEXT: usize = 4096;

struct Texts;

impl line_io::Answers for Texts {
    fn answer(&self, _k: u64, line: &[u8], text: &mut [u8]) -> Option<usize> {
        print_texts::texts_answer(line, text).ok()
    }
}

fn main(rt: HostRuntime) {
    let mut line = [0u8; LINE];
    let mut text = [0u8; TEXT];
    line_io::answer_lines(
        &mut rt.stdin(),
        &mut rt.stdout(),
        &mut rt.stderr(),
        &Texts,
        &mut line,
        &mut text,
    );
}
