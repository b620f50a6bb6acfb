// Shows for a book of rules on standard input, one a line, which pairs of them overlap.
#![tactic(auto, using(text_write::proofs::pieces::Pieces::written_in))]

use book_rules::texts::Added;

// Of a line one byte more is kept than a rule's text may have: with more it is too long whatever they are (`cut_same` of print_book's
// proofs/Runs).
const LINE: usize = base_limits::MOST_RULE_BYTES + 1;

// The bytes are made once, and lent for every line.
fn main(rt: HostRuntime) {
    let mut chunk = [0u8; line_io::BUFFER];
    let mut line = [0u8; LINE];
    let mut row = [0u8; book_rules::texts::BOOK_BYTES];
    let mut text = [0u8; book_rules::texts::LONGEST_TEXT];
    let mut buffer = [0u8; line_io::BUFFER];
    let mut reader = rt.stdin();
    let mut writer = rt.stdout();
    let mut s = line_io::start();
    let mut kept = book_rules::texts::no_texts();
    let mut refused = false;
    // The lines up to the first that is refused; a seventeenth is, whatever it holds.
    for k in 1..=base_limits::MOST_RULES as u64 + 1 {
        if refused || !line_io::is_open(s) {
            break;
        }
        s = line_io::next_line(&mut reader, &mut writer, s, &mut chunk, &mut line, &buffer);
        if s.line.found {
            let adding = book_rules::texts::add_line(kept, &line[..s.line.kept], &mut row);
            kept = adding.kept;
            refused = !matches!(adding.added, Added::Taken);
            if let Ok(n) = print_book::line_answer(k, adding.added, &mut text) {
                s.output = line_io::put(&mut writer, &text[..n], &mut buffer, s.output);
            }
        }
    }
    // The pairs are shown of a whole book alone: not where a line was refused, nor where the input cannot be read to its end.
    if !refused && !s.input.failed {
        if let Ok(n) = book_rules::texts::write_pairs(kept, &row, &mut text) {
            s.output = line_io::put(&mut writer, &text[..n], &mut buffer, s.output);
        }
    }
    line_io::finish(&mut writer, &mut rt.stderr(), s, &buffer);
}
