// The text of a search's answer: a line with its refusal and its counts, and behind it the lines that it found.
ghost use Rattle.std.specs.Prelude.{◌++◌, ◌≤◌, length};
ghost use Rattle.text_grammar.specs.Numbers.{digits_of};
ghost use Rattle.text_write.specs.pieces.Placed.{PlacedOn};
ghost use Rattle.print_solve.specs.search.Found.{counts_text, longest_body};
ghost use Rattle.print_solve.specs.search.Values.{searched_text};

use search_row::SearchRefusal;
use text_values::Field;
use text_write::pieces::Page;

fn put_count(page: &mut Page, words: &[u8], n: u64)
    ensures { PlacedOn (words.now ++ digits_of n) page.old page.new }
{
    page.put_bytes(words);
    page.put_number(n);
}

fn put_counts(page: &mut Page, refusal: u64, lines: u64, bytes: u64)
    ensures { PlacedOn (counts_text refusal lines bytes) page.old page.new }
{
    put_count(page, b"refusal ", refusal);
    put_count(page, b" lines ", lines);
    put_count(page, b" bytes ", bytes);
    page.put_bytes(b"\n");
}

// As many bytes as the lines of a search may have.
pub const MOST_BYTES: usize = 131072;
// The line of the counts: `refusal ` and a digit, ` lines ` and ` bytes ` with a number each, the line's end.
const LONGEST_COUNTS: usize = 8
    + 1
    + (7 + text_write::LONGEST_NUMBER)
    + (7 + text_write::LONGEST_NUMBER)
    + 1;
// No text of a search has more.
pub const LONGEST_BODY: usize = LONGEST_COUNTS + MOST_BYTES;

// The search in a row of its own. It is lent as many bytes as are asked for, as far as there are so many,
// so that the search itself tells when they are too few.
pub(crate) fn put_search(page: &mut Page, left: Field, right: Field, row: usize, room: usize)
    ensures placed { PlacedOn (searched_text left right row room) page.old page.new }
    ensures room_len_bound { length (searched_text left right row room) ≤ longest_body }
{
    let mut text: [u8; MOST_BYTES] = print_parts::room();
    let lent = room.min(MOST_BYTES);
    match search_row::own::search_in(left, right, row, &mut text[..lent]) {
        Ok(found) => {
            put_counts(page, 0, found.lines as u64, found.bytes as u64);
            page.put_bytes(&text[..found.bytes]);
        }
        Err(SearchRefusal::TooSmall(found)) => {
            put_counts(page, 8, found.lines as u64, found.bytes as u64)
        }
        Err(SearchRefusal::Full) => put_counts(page, 9, 0, 0),
    }
}
