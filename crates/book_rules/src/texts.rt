// A book as the texts of its rules, each in a part of its own of lent bytes, so that a rule is neither kept nor compared as a value.
ghost use Rattle.std.specs.Prelude.{◌≡◌, ◌≤◌, ◌<◌, length};
ghost use Rattle.base_limits.specs.Limits.{most_rules, longest_rule};
ghost use Rattle.text_grammar.specs.Plain.{plain};
ghost use Rattle.text_accepted.specs.rules.Rules.{counted_rule};
ghost use Rattle.text_write.specs.Answers.{Writes};
ghost use Rattle.text_write.specs.pieces.Placed.{PlacedOn};
ghost use Rattle.book_spec.specs.Books.{meet, pair_text, book_text};
ghost use Rattle.book_rules.specs.Books.{counted_book};
ghost use Rattle.book_rules.specs.texts.Keeping.{book_bytes, no_texts, room_for, Keeps, AddsLine, book_in};
ghost use Rattle.book_rules.specs.texts.Pairs.{row_text};

use crate::Book;
use text_refusals::verdicts::{Reason, Refusal};
use text_values::Rule;
use text_write::TooSmall;
use text_write::pieces::Page;

// The bytes of a whole book: no text that is accepted is longer than the longest plain text.
pub const BOOK_BYTES: usize = base_limits::MOST_RULES * base_limits::LONGEST_RULE;
// Every pair of positions, each with two numbers of two digits, a blank and a newline.
pub const LONGEST_TEXT: usize = base_limits::MOST_RULES * (base_limits::MOST_RULES - 1) / 2
    * (2 + 1 + 2 + 1);

// How many texts are kept, and how many bytes each has. Stays a count beside an array: the texts themselves stand in lent bytes.
#[derive(Clone, Copy)]
pub struct Kept {
    pub n: usize,
    pub sizes: [usize; base_limits::MOST_RULES],
}

// What is said of a line that is to be the next rule. `told` of specs/texts/Keeping has document 02's number and place of each.
#[derive(Clone, Copy)]
pub enum Added {
    Taken,
    Refused(Reason, usize),
    // a seventeenth
    Full,
}

#[derive(Clone, Copy)]
pub struct Adding {
    pub added: Added,
    pub kept: Kept,
}

pub fn no_texts() -> Kept
    ensures { result ≡ no_texts }
{
    Kept {
        n: 0,
        sizes: [0; base_limits::MOST_RULES],
    }
}

// How many texts so many bytes have room for, up to a whole book.
fn room_for(size: usize) -> usize
    ensures { result ≡ room_for size }
{
    (size / base_limits::LONGEST_RULE).min(base_limits::MOST_RULES)
}

// The text goes behind those that are kept.
fn keep_text(kept: Kept, text: &[u8], row: &mut [u8]) -> Kept
    requires { (kept.n < room_for (length row.old)) × (length text.now ≤ longest_rule) }
    ensures { Keeps kept text.now row.old result row.new }
{
    let n = kept.n;
    let at = n * base_limits::LONGEST_RULE;
    base_bytes::copy(text, &mut row[at..]);
    let mut sizes = kept.sizes;
    sizes[n] = text.len();
    Kept { n: n + 1, sizes }
}

// The next line of a book: it is kept where it is read as a rule. A book that is full takes none, whatever it is.
pub fn add_line(kept: Kept, line: &[u8], row: &mut [u8]) -> Adding
    ensures { AddsLine kept line.now row.old result row.new }
{
    if room_for(row.len()) <= kept.n {
        return Adding {
            added: Added::Full,
            kept,
        };
    }
    let judged = text_read::judge_left(line);
    let verdict = judged.verdict;
    match verdict {
        Ok(()) => {
            let more = keep_text(kept, line, row);
            Adding {
                added: Added::Taken,
                kept: more,
            }
        }
        Err(Refusal { reason, place }) => Adding {
            added: Added::Refused(reason, place),
            kept,
        },
    }
}

// ---- the pairs

// Whether the rules of two texts overlap.
fn overlap(kept: Kept, row: &[u8], i: usize, j: usize) -> bool
    requires { (kept.n ≤ room_for (length row.now)) × (i < kept.n) × (j < kept.n) }
    ensures { result ≡ meet (book_in kept row.now) (i, j) }
{
    let a = i * base_limits::LONGEST_RULE;
    let b = j * base_limits::LONGEST_RULE;
    let c = a + kept.sizes[i].min(base_limits::LONGEST_RULE);
    let d = b + kept.sizes[j].min(base_limits::LONGEST_RULE);
    overlap_list::shared::texts_overlap(&row[a..c], &row[b..d]).overlap
}

// A line of two positions, shown from 1.
fn put_pair(page: &mut Page, i: usize, j: usize)
    requires { (i < most_rules) × (j < most_rules) }
    ensures { PlacedOn (pair_text (i, j)) page.old page.new }
{
    page.put_number(i as u64 + 1);
    page.put_bytes(b" ");
    page.put_number(j as u64 + 1);
    page.put_bytes(b"\n");
}

// The lines of position i with those behind it.
fn put_row(page: &mut Page, kept: Kept, row: &[u8], i: usize)
    requires { (kept.n ≤ room_for (length row.now)) × (i < kept.n) }
    ensures { PlacedOn (row_text (book_in kept row.now) i) page.old page.new }
{
    for j in i + 1..kept.n {
        if overlap(kept, row, i, j) {
            put_pair(page, i, j);
        }
    }
}

// The lines of all positions.
fn put_rows(page: &mut Page, kept: Kept, row: &[u8])
    requires { kept.n ≤ room_for (length row.now) }
    ensures { PlacedOn (book_text (book_in kept row.now)) page.old page.new }
{
    for i in 0..kept.n {
        put_row(page, kept, row, i);
    }
}

// Document 02: "a line `I J` for each overlapping pair, lower number first, sorted by I, then by J, as numbers". More texts than the bytes
// have room for count as an empty book.
pub fn write_pairs(kept: Kept, row: &[u8], out: &mut [u8]) -> Result<usize, TooSmall>
    ensures { Writes (book_text (book_in kept row.now)) out.old result out.new }
{
    if room_for(row.len()) < kept.n {
        return Ok(0);
    }
    let mut text = [0u8; LONGEST_TEXT];
    let mut page = Page {
        bytes: &mut text,
        at: 0,
    };
    put_rows(&mut page, kept, row);
    page.give(out)
}

// ---- of a value

// The plain text of a rule's left side goes behind those that are kept: no bytes for what no reading returns.
fn keep_rule(kept: Kept, rule: Rule, row: &mut [u8]) -> Kept
    requires { kept.n < room_for (length row.old) }
    ensures { Keeps kept (plain (counted_rule rule).0) row.old result row.new }
{
    let mut text = [0u8; base_limits::LONGEST_SIDE];
    let side = text_accepted::rules::left_of(rule);
    let n = text_write::pieces::size_of(text_plain::write_side(side, &mut text));
    keep_text(kept, &text[..n], row)
}

// The texts of a book's rules.
pub(crate) fn keep_book(book: Book, row: &mut [u8]) -> Kept
    requires { length row.old ≡ book_bytes }
    ensures { book_in result row.new ≡ counted_book book }
{
    let mut kept = no_texts();
    if base_limits::MOST_RULES < book.n {
        return kept;
    }
    for i in 0..book.n {
        kept = keep_rule(kept, book.rules[i], row);
    }
    kept
}
