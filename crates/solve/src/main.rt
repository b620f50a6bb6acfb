// Shows for each line of standard input, two field texts, a row and a room with tabs between them,
// the lines of the search for the two fields.
#![tactic(auto)]

// Of a line one byte more is kept than it may have: with more it is too long whatever they are (`cut_same` of print_solve's
// proofs/Lengths).
const LINE: usize = print_solve::LONGEST_LINE + 1;

struct Solve;

impl line_io::Answers for Solve {
    fn answer(&self, k: u64, line: &[u8], text: &mut [u8]) -> Option<usize> {
        print_solve::solve_answer(k, line, text).ok()
    }
}

// The text has room for any answer: none has more bytes (`solve_answer` ensures it).
fn main(rt: HostRuntime) {
    let mut line = [0u8; LINE];
    let mut text = [0u8; print_solve::LONGEST_ANSWER];
    line_io::answer_lines(
        &mut rt.stdin(),
        &mut rt.stdout(),
        &mut rt.stderr(),
        &Solve,
        &mut line,
        &mut text,
    );
}
