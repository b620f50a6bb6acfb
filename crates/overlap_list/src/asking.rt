// Asking first and printing after: an ask returns the counts of the overlap list and has no buffer; a commit takes the counts that were
// asked for, and writes the list where they are its own.
ghost use Rattle.std.specs.Prelude.{◌≡◌};
ghost use Rattle.text_accepted.specs.rules.Rules.{counted_rule};
ghost use Rattle.overlap_counts.specs.Answers.{no_counts};
ghost use Rattle.overlap_list.specs.Listing.{pair_lines, Countable};
ghost use Rattle.overlap_list.specs.asking.Answers.{counts_of, Commits, TextsAsk, TextsCommit, CommitsLines};

use overlap_counts::{CommitRefusal, Counts};
use text_refusals::verdicts::Verdict;
use text_values::Rule;

// How two texts are read, and the counts of the list of what they say.
#[derive(Clone, Copy)]
pub struct TextsAsked {
    pub left: Verdict,
    pub right: Verdict,
    pub counts: Counts,
}

// How two texts are read, and the answer of a commit to what they say.
#[derive(Clone, Copy)]
pub struct TextsCommitted {
    pub left: Verdict,
    pub right: Verdict,
    pub committed: Result<Counts, CommitRefusal>,
}

// ---- texts

// THE COUNTS OF THE OVERLAP LIST of the rules that two texts say, and how each is read: every line is measured, and none is written.
pub fn ask_texts(left: &[u8], right: &[u8]) -> TextsAsked
    ensures { TextsAsk left.now right.now result }
{
    let mut row = [0u8; pair_row::ROW_BYTES];
    let mut texts = [0u8; pair_row::TEXTS_BYTES];
    let noted = crate::note_texts(left, right, &mut row, &mut texts);
    TextsAsked {
        left: noted.left,
        right: noted.right,
        counts: crate::all_lines(noted.pair, &row, &texts, &mut []),
    }
}

// Measured once, and written once where the counts are the list's and there is room.
fn commit_pair(
    asked: Counts,
    pair: Option<u8>,
    row: &[u8],
    texts: &[u8],
    out: &mut [u8],
) -> Result<Counts, CommitRefusal>
    requires { Countable no_counts (pair_lines pair row.now texts.now) }
    ensures { CommitsLines asked (pair_lines pair row.now texts.now) out.old result out.new }
{
    let counts = crate::all_lines(pair, row, texts, &mut out[..0]);
    overlap_counts::answer_of(asked, counts, out.len())?;
    Ok(crate::all_lines(pair, row, texts, out))
}

// THE LIST THAT WAS ASKED FOR, of the rules that two texts say, and how each is read.
pub fn commit_texts(asked: Counts, left: &[u8], right: &[u8], out: &mut [u8]) -> TextsCommitted
    ensures { TextsCommit asked left.now right.now out.old result out.new }
{
    let mut row = [0u8; pair_row::ROW_BYTES];
    let mut texts = [0u8; pair_row::TEXTS_BYTES];
    let noted = crate::note_texts(left, right, &mut row, &mut texts);
    TextsCommitted {
        left: noted.left,
        right: noted.right,
        committed: commit_pair(asked, noted.pair, &row, &texts, out),
    }
}

// ---- values

// The counts of the list of two rule values.
pub fn ask(left: Rule, right: Rule) -> Counts
    ensures { result ≡ counts_of (counted_rule left).0 (counted_rule right).0 }
{
    let mut a = [0u8; base_limits::LONGEST_SIDE];
    let mut b = [0u8; base_limits::LONGEST_SIDE];
    let n = crate::put_left(left, &mut a);
    let m = crate::put_left(right, &mut b);
    ask_texts(&a[..n], &b[..m]).counts
}

// The list of two rule values that was asked for.
pub fn commit(
    asked: Counts,
    left: Rule,
    right: Rule,
    out: &mut [u8],
) -> Result<Counts, CommitRefusal>
    ensures { Commits asked (counted_rule left).0 (counted_rule right).0 out.old result out.new }
{
    let mut a = [0u8; base_limits::LONGEST_SIDE];
    let mut b = [0u8; base_limits::LONGEST_SIDE];
    let n = crate::put_left(left, &mut a);
    let m = crate::put_left(right, &mut b);
    commit_texts(asked, &a[..n], &b[..m], out).committed
}
