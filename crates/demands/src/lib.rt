// The demands as promises of compiled functions: each calls one of the product's and ensures what the demands say of its answer and of
// the lent bytes, as the theorems of specs/ have it from that function's contract. Nothing calls them: a contract of the product that
// says less does not pass here.
#![tactic(auto)]

ghost use Rattle.std.specs.Prelude.{◌≡◌};
ghost use Rattle.demands.specs.Texts.{RuleReading, SlipReading, RuleWriting, SlipWriting};
ghost use Rattle.demands.specs.Matching.{Matching};
ghost use Rattle.demands.specs.Comparing.{Comparing};
ghost use Rattle.demands.specs.Carrying.{Carrying};
ghost use Rattle.demands.specs.Searching.{SearchDemand};
ghost use Rattle.demands.specs.Overlaps.{ListsSharedSlips, TextsSharedSlips};
ghost use Rattle.demands.specs.Committing.{RulesAsking, RulesCommitting, AskingFirst, TextsAsking, TextsCommitting};
ghost use Rattle.demands.specs.Pairs.{PairSharedSlips};
ghost use Rattle.demands.specs.Library.{LibrarySharedSlips, LibraryMeetingSlips};
ghost use Rattle.demands.specs.LibraryCommitting.{LibraryAsking, LibraryCommitting};
ghost use Rattle.demands.specs.Books.{Picking, Ordering};
ghost use Rattle.book_rules.specs.Books.{counted_book};
ghost use Rattle.book_rules.specs.texts.Keeping.{book_in};
ghost use Rattle.yopobrush.specs.Version.{library_version};

use apply_rules::Carried;
use book_rules::Book;
use book_rules::texts::Kept;
use match_rules::{Comparison, Match};
use overlap_counts::{CommitRefusal, Counts, NoRoom};
use overlap_list::TextsListed;
use overlap_list::asking::{TextsAsked, TextsCommitted};
use search_problems::Problem;
use search_row::Searched;
use text_read::{RuleRead, SlipRead};
use text_values::{Field, Rule, Slip};
use text_write::TooSmall;
use yopobrush::{Asking, Listing, Overlapping};

// ---- reading and writing

// Each refusal in its stated case only, at its place; what stands beside it has no fields; else the fields that the text says,
// of a rule's both sides.
pub fn read_rule(text: &[u8]) -> RuleRead
    ensures { RuleReading text.now result }
{
    text_read::read_rule(text)
}

pub fn read_slip(text: &[u8]) -> SlipRead
    ensures { SlipReading text.now result }
{
    text_read::read_slip(text)
}

// The plain text and the old bytes behind it, or refusal 8 and all old bytes; read again, the text gives the rule, or the slip.
pub fn write_rule(r: Rule, out: &mut [u8]) -> Result<usize, TooSmall>
    ensures { RuleWriting r out.old result out.new }
{
    text_plain::rules::write_rule(r, out)
}

pub fn write_slip(s: Slip, out: &mut [u8]) -> Result<usize, TooSmall>
    ensures { SlipWriting s out.old result out.new }
{
    text_plain::slips::write_slip(s, out)
}

// ---- demand 2, matching

// Yes exactly when some filling makes the left side and the slip equal by GP 2's laws; then the one filling is shown, and else none.
pub fn match_rule(rule: Rule, slip: Slip) -> Match
    ensures { Matching rule slip result }
{
    match_rules::match_rule(rule, slip)
}

// The same answer, found by ending at the first test that fails, and how many of the slip's items were compared until then.
pub fn compare_rule(rule: Rule, slip: Slip) -> Comparison
    ensures { Comparing rule slip result }
{
    match_rules::compare_rule(rule, slip)
}

// ---- carrying out

// Yes with the right side and the filling put in; no or refusal 11 with the slip as given.
pub fn carry_out(rule: Rule, slip: Slip) -> Carried
    ensures { Carrying rule slip result }
{
    apply_rules::carry_out(rule, slip)
}

// ---- demand 2, the search

// The search for one field pair, with what the demands say of every call.
pub fn search(left: Field, right: Field, row: &mut [Problem], out: &mut [u8]) -> Searched
    ensures { SearchDemand left right row.old out.old result row.new out.new }
{
    search_row::search(left, right, row, out)
}

// ---- demand 3

// The list of two rule values, which is that of their left sides.
pub fn list_overlaps(left: Rule, right: Rule, out: &mut [u8]) -> Result<Counts, NoRoom>
    ensures { ListsSharedSlips left right out.old result out.new }
{
    overlap_list::list_overlaps(left, right, out)
}

// The list of the rules that two texts say.
pub fn list_texts(left: &[u8], right: &[u8], out: &mut [u8]) -> TextsListed
    ensures { TextsSharedSlips left.now right.now out.old result out.new }
{
    overlap_list::list_texts(left, right, out)
}

// The counts of the list of two rule values: 0 and 0 where one has no fields.
pub fn ask(left: Rule, right: Rule) -> Counts
    ensures { RulesAsking left right result }
{
    overlap_list::asking::ask(left, right)
}

// The list of two rule values that was asked for: 13 exactly where the counts are not its own, and else demand 3 in the room for it.
pub fn commit(
    asked: Counts,
    left: Rule,
    right: Rule,
    out: &mut [u8],
) -> Result<Counts, CommitRefusal>
    ensures { RulesCommitting asked left right out.old result out.new }
{
    overlap_list::asking::commit(asked, left, right, out)
}

// An ask and then a commit: what the one call answers and leaves.
pub fn ask_then_commit(left: Rule, right: Rule, out: &mut [u8]) -> Result<Counts, CommitRefusal>
    ensures { AskingFirst left right out.old result out.new }
{
    let counts = overlap_list::asking::ask(left, right);
    overlap_list::asking::commit(counts, left, right, out)
}

// The same of the rules that two texts say.
pub fn ask_texts(left: &[u8], right: &[u8]) -> TextsAsked
    ensures { TextsAsking left.now right.now result }
{
    overlap_list::asking::ask_texts(left, right)
}

pub fn commit_texts(asked: Counts, left: &[u8], right: &[u8], out: &mut [u8]) -> TextsCommitted
    ensures { TextsCommitting asked left.now right.now out.old result out.new }
{
    overlap_list::asking::commit_texts(asked, left, right, out)
}

// What `pairs` prints for a line.
pub fn pair_answer(k: u64, line: &[u8], out: &mut [u8]) -> Result<usize, TooSmall>
    ensures { PairSharedSlips k line.now out.old result out.new }
{
    print_pairs::pair_answer(k, line, out)
}

// Which version of the static library this is.
pub fn library_version() -> u64
    ensures { result ≡ library_version }
{
    yopobrush::yopobrush_version()
}

// The static library's list of two texts.
pub fn library_list(left: &[u8], right: &[u8], out: &mut [u8]) -> Listing
    ensures { LibrarySharedSlips left.now right.now out.old result out.new }
{
    yopobrush::yopobrush_list_overlaps(left, right, out)
}

// The static library's ask and commit of two texts.
pub fn library_ask(left: &[u8], right: &[u8]) -> Asking
    ensures { LibraryAsking left.now right.now result }
{
    yopobrush::yopobrush_ask_overlaps(left, right)
}

pub fn library_commit(
    entries: u64,
    bytes: u64,
    left: &[u8],
    right: &[u8],
    out: &mut [u8],
) -> Listing
    ensures { LibraryCommitting (record { entries = entries; bytes = bytes }) left.now right.now
        out.old result out.new }
{
    yopobrush::yopobrush_commit_overlaps(entries, bytes, left, right, out)
}

// ---- a maker's book

// The first rule that matches the slip, or none exactly where none does.
pub fn pick(book: Book, slip: Slip) -> Option<usize>
    ensures { Picking book slip result }
{
    book_rules::pick(book, slip)
}

// The overlapping pairs: none exactly where every order picks the same.
pub fn write_pairs(book: Book, out: &mut [u8]) -> Result<usize, TooSmall>
    ensures { Ordering (counted_book book) out.old result out.new }
{
    book_rules::write_pairs(book, out)
}

// The same of a book as texts.
pub fn write_pairs_of_texts(kept: Kept, row: &[u8], out: &mut [u8]) -> Result<usize, TooSmall>
    ensures { Ordering (book_in kept row.now) out.old result out.new }
{
    book_rules::texts::write_pairs(kept, row, out)
}

// Whether the rules of two texts overlap, as the static library says it: 1 exactly where a slip that can be read is matched by both.
pub fn library_overlap(left: &[u8], right: &[u8]) -> Overlapping
    ensures { LibraryMeetingSlips left.now right.now result }
{
    yopobrush::yopobrush_texts_overlap(left, right)
}
