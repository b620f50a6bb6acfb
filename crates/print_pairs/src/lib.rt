// The text that `pairs` prints for one line, into lent bytes: the overlaps of the line's two rules.
// It is put together piece behind piece where the room is known to be enough: in the lent bytes, or else in bytes of its own that are then
// given whole or not at all.
#![tactic(auto)]

ghost use Rattle.std.specs.Prelude.{◌+◌, ◌≤◌, length};
ghost use Rattle.base_limits.specs.Limits.{most_list_bytes};
ghost use Rattle.text_write.specs.Answers.{Writes};
ghost use Rattle.text_write.specs.pieces.Placed.{PlacedOn};
ghost use Rattle.print_pairs.specs.Pairs.{line_text, longest_answer, pair_answer};

mod overlaps; // the text of what is said of two rules

use text_write::TooSmall;
use text_write::pieces::Page;

// ---- pieces of a page

// What is said of a line.
fn put_line(page: &mut Page, line: &[u8])
    requires { page.old.at + most_list_bytes ≤ length page.old.bytes.now }
    ensures placed { PlacedOn (line_text line.now) page.old page.new }
    ensures line_len_bound { length (line_text line.now) ≤ most_list_bytes }
{
    let n = line.len();
    if base_limits::PAIR_LINE < n {
        return page.put_bytes(b"line too long\n");
    }
    let tab = text_write::pieces::tab_place(line);
    let rest = print_parts::behind(tab, n);
    crate::overlaps::put_texts(page, &line[..tab], &line[rest..]);
}

// The title and what is said of the line.
fn put_answer(page: &mut Page, k: u64, line: &[u8])
    requires { page.old.at + longest_answer ≤ length page.old.bytes.now }
    ensures placed { PlacedOn (pair_answer k line.now) page.old page.new }
    ensures line_len_bound { length (pair_answer k line.now) ≤ longest_answer }
{
    print_parts::put_title(page, b"pair ", k);
    put_line(page, line);
}

// A title: `pair `, the line's number and its end.
const LONGEST_TITLE: usize = 5 + text_write::LONGEST_NUMBER + 1;
// No answer has more: a title, and behind it a list.
pub const LONGEST_ANSWER: usize = LONGEST_TITLE + base_limits::MOST_LIST_BYTES;

// The lines that `pairs` prints for line number k.
pub fn pair_answer(k: u64, line: &[u8], out: &mut [u8]) -> Result<usize, TooSmall>
    ensures writes { Writes (pair_answer k line.now) out.old result out.new }
    ensures line_len_bound { length (pair_answer k line.now) ≤ longest_answer }
{
    if LONGEST_ANSWER <= out.len() {
        let mut page = Page { bytes: out, at: 0 };
        put_answer(&mut page, k, line);
        return Ok(page.at);
    }
    let mut text: [u8; LONGEST_ANSWER] = print_parts::room();
    let mut page = Page {
        bytes: &mut text,
        at: 0,
    };
    put_answer(&mut page, k, line);
    page.give(out)
}
