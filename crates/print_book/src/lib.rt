// The text that `book` prints where a line is refused, into lent bytes. Where none is, it prints the lines of the book's pairs,
// which `book_rules::texts::write_pairs` writes.
#![tactic(auto)]

ghost use Rattle.std.specs.Prelude.{◌≤◌, length};
ghost use Rattle.text_write.specs.Answers.{Writes};
ghost use Rattle.text_write.specs.pieces.Placed.{PlacedOn};
ghost use Rattle.print_book.specs.Book.{stop_text, added_text, longest_stop};

use book_rules::texts::Added;
use text_write::TooSmall;
use text_write::pieces::Page;

// The refusal of a seventeenth rule.
const BOOK_FULL: u64 = 12;
// `refused `, the line's number, a blank, the refusal's number and place with ` at ` between them, the line's end.
pub const LONGEST_STOP: usize = 8
    + text_write::LONGEST_NUMBER
    + 1
    + (text_write::LONGEST_NUMBER + 4 + text_write::LONGEST_NUMBER)
    + 1;

// Line number k is refused by n at a place.
fn put_stop(page: &mut Page, k: u64, n: u64, place: u64)
    ensures placed { PlacedOn (stop_text k n place) page.old page.new }
    ensures place_len_bound { length (stop_text k n place) ≤ longest_stop }
{
    page.put_bytes(b"refused ");
    page.put_number(k);
    page.put_bytes(b" ");
    page.put_number_at(n, place);
    page.put_bytes(b"\n");
}

fn put_answer(page: &mut Page, k: u64, added: Added)
    ensures placed { PlacedOn (added_text k added) page.old page.new }
    ensures added_len_bound { length (added_text k added) ≤ longest_stop }
{
    match added {
        Added::Taken => {}
        Added::Refused(reason, place) => put_stop(
            page,
            k,
            text_refusals::verdicts::number(reason) as u64,
            place as u64,
        ),
        Added::Full => put_stop(page, k, BOOK_FULL, 0),
    }
}

// What `book` prints for line number k: nothing where it is taken, its refusal else.
pub fn line_answer(k: u64, added: Added, out: &mut [u8]) -> Result<usize, TooSmall>
    ensures writes { Writes (added_text k added) out.old result out.new }
    ensures added_len_bound { length (added_text k added) ≤ longest_stop }
{
    let mut text = [0u8; LONGEST_STOP];
    let mut page = Page {
        bytes: &mut text,
        at: 0,
    };
    put_answer(&mut page, k, added);
    page.give(out)
}
