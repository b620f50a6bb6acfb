// A maker's book as a value: which rule a slip gets, and which pairs of its rules overlap.
#![tactic(auto)]

ghost use Rattle.text_accepted.specs.slips.Slips.{counted_slip};
ghost use Rattle.text_write.specs.Answers.{Writes};
ghost use Rattle.book_spec.specs.Books.{book_text};
ghost use Rattle.book_rules.specs.Books.{counted_book, PicksRule};

pub mod texts; // a book as the texts of its rules, in lent bytes

use text_values::{Rule, Slip};
use text_write::TooSmall;

// Document 02: "Rules come as a book of up to 16". Of more than 16 it counts as an empty one.
// Stays a count beside an array: a count over 16 is a value too, of which `pick` and `write_pairs` answer.
#[derive(Clone, Copy)]
pub struct Book {
    pub n: usize,
    pub rules: [Rule; base_limits::MOST_RULES],
}

// Document 02: "A slip's rule is the first in the book that matches it." Its number, from 1. A rule that no reading returns matches
// nothing, and keeps its position.
pub fn pick(book: Book, slip: Slip) -> Option<usize>
    ensures { PicksRule (counted_book book) (counted_slip slip) result }
{
    let n = book.n;
    if base_limits::MOST_RULES < n {
        return None;
    }
    for i in 0..n {
        let m = match_rules::match_rule(book.rules[i], slip);
        if m.yes {
            return Some(i + 1);
        }
    }
    None
}

// Document 02: "a line `I J` for each overlapping pair, lower number first, sorted by I, then by J, as numbers".
pub fn write_pairs(book: Book, out: &mut [u8]) -> Result<usize, TooSmall>
    ensures { Writes (book_text (counted_book book)) out.old result out.new }
{
    let mut row = [0u8; texts::BOOK_BYTES];
    let kept = texts::keep_book(book, &mut row);
    texts::write_pairs(kept, &row, out)
}
