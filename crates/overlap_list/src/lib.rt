// Listing the overlaps of two rules, which are those of their left sides: every choice of one candidate a field that nothing kills,
// the first field slowest.
// The two sides are read into the tables of a pair; the list is made on these alone,
// measured first where it might not fit, and then written.
#![tactic(auto)]

ghost use Rattle.std.specs.Prelude.{◌≡◌, [], ◌∷◌, ◌+◌, ◌≤◌, ◌<◌, length};
ghost use Rattle.base_limits.specs.Limits.{most_fields};
ghost use Rattle.text_accepted.specs.rules.Rules.{counted_rule};
ghost use Rattle.text_write.specs.Answers.{after};
ghost use Rattle.pair_table.specs.Notes.{blank_rows};
ghost use Rattle.pair_lines.specs.Lines.{line_in};
ghost use Rattle.overlap_counts.specs.Answers.{no_counts};
ghost use Rattle.overlap_list.specs.Listing.{candidate_of, Stores, lines_in, choices_in, choices};
ghost use Rattle.overlap_list.specs.Listing.{span_bound, Moderate, Countable};
ghost use Rattle.overlap_list.specs.Listing.{pair_lines, pair_choices, pairing_of, Few, Listable};
ghost use Rattle.overlap_list.specs.Answers.{Lists, ListsLines, NotesTexts, TextsList, left_plain};

pub mod asking; // the counts of the list without a buffer, and the list that was asked for
pub mod shared; // whether two rules overlap, without the list

use overlap_counts::{Counts, NoRoom};
use overlap_entries::{Candidate, Choice, Span};
use pair_state::State;
use text_refusals::verdicts::Verdict;
use text_values::Rule;

// How two texts are read, and the answer of listing what they say: the counts of the lines that were written, or that none was for want
// of room. `told` of specs/Answers has document 01's number of each.
#[derive(Clone, Copy)]
pub struct TextsListed {
    pub left: Verdict,
    pub right: Verdict,
    pub listed: Result<Counts, NoRoom>,
}

// How two texts are read, and how many fields the rules that they say have, if they can have an entry: only rules with as many fields can,
// and a rule with no fields has none.
#[derive(Clone, Copy)]
struct TextsNoted {
    left: Verdict,
    right: Verdict,
    pair: Option<u8>,
}

// An entry's line goes into the part of the buffer behind the line before it, as far as there is room.
fn put_entry(
    row: &[u8],
    texts: &[u8],
    fields: u8,
    ch: Choice,
    st: State,
    out: &mut [u8],
    t: Counts,
) -> Counts
    requires { Countable t (line_in row.now texts.now fields ch st.atoms ∷ []) }
    ensures stores { Stores (line_in row.now texts.now fields ch st.atoms ∷ []) t out.old result
        out.new }
    ensures moderate { Moderate result }
{
    let at = t.bytes.min(out.len());
    let n = pair_lines::put_line(row, texts, fields, ch, &st.atoms, &mut out[at..]);
    Counts {
        entries: t.entries + 1,
        bytes: t.bytes + n,
    }
}

// The candidate that comes next where k are left.
pub(crate) fn candidate_of(s: Span, k: u16) -> Candidate
    requires { (1 ≤ k) × (k ≤ s.count) × (s.least + s.count ≤ span_bound) }
    ensures { result ≡ candidate_of s k }
{
    Candidate {
        items: s.least + (s.count - k),
        long: s.long && k == 1,
    }
}

// All fields from j on: each choice of the next field, or the line where every field is chosen.
#[cycle(choose_next_field)]
fn next_field(
    row: &[u8],
    texts: &[u8],
    fields: u8,
    j: u8,
    ch: Choice,
    st: State,
    out: &mut [u8],
    t: Counts,
) -> Counts
    requires { (j ≤ fields) × Countable t (lines_in row.now texts.now fields j ch st) }
    ensures stores { Stores (lines_in row.now texts.now fields j ch st) t out.old result out.new }
    ensures moderate { Moderate result }
{
    if fields <= j {
        return put_entry(row, texts, fields, ch, st, out, t);
    }
    choose(row, texts, fields, j, ch, st, out, t)
}

// The candidates of field j: each leads to the next field's choices.
#[cycle(choose_next_field)]
fn choose(
    row: &[u8],
    texts: &[u8],
    fields: u8,
    j: u8,
    ch: Choice,
    st: State,
    out: &mut [u8],
    t: Counts,
) -> Counts
    requires { (j < fields) × Countable t (choices_in row.now texts.now fields j ch st) }
    ensures stores { Stores (choices_in row.now texts.now fields j ch st) t out.old result out.new }
    ensures moderate { Moderate result }
{
    let f = pair_row::shape_at(row, false, j);
    let g = pair_row::shape_at(row, true, j);
    let s = overlap_entries::span_of(f, g);
    let mut u = t;
    // k more are left behind each
    for k in (0..s.count).rev() {
        let c = candidate_of(s, k + 1);
        if let Some(next) = overlap_entries::join_fields(row, f, g, c.items, st) {
            let chosen = overlap_entries::choose_at(ch, j, c);
            u = next_field(row, texts, fields, j + 1, chosen, next, out, u);
        }
    }
    u
}

// ---- the whole list

fn no_counts() -> Counts
    ensures { result ≡ no_counts }
{
    Counts {
        entries: 0,
        bytes: 0,
    }
}

// Every choice from the first field on; none of rules that are apart.
pub(crate) fn all_lines(pair: Option<u8>, row: &[u8], texts: &[u8], out: &mut [u8]) -> Counts
    requires { Countable no_counts (pair_lines pair row.now texts.now) }
    ensures { Stores (pair_lines pair row.now texts.now) no_counts out.old result out.new }
{
    match pair {
        None => no_counts(),
        Some(n) => next_field(
            row,
            texts,
            n,
            0,
            overlap_entries::no_choice(),
            pair_state::start(row),
            out,
            no_counts(),
        ),
    }
}

// How many choices of one candidate a field there are, with those that something kills.
fn choices(row: &[u8], fields: u8) -> usize
    requires { fields ≤ most_fields }
    ensures { result ≡ choices row.now 0 fields }
{
    let mut n = 1usize;
    for j in (0..fields).rev() {
        let f = pair_row::shape_at(row, false, j);
        let g = pair_row::shape_at(row, true, j);
        n = overlap_entries::span_of(f, g).count as usize * n;
    }
    n
}

// No pair has more lines than that.
fn most_lines(pair: Option<u8>, row: &[u8]) -> usize
    requires { Few pair }
    ensures { result ≡ pair_choices pair row.now }
{
    match pair {
        None => 0,
        Some(n) => choices(row, n),
    }
}

// Measured with no room unless it surely fits, so that a buffer that is too small keeps its old bytes; then written.
fn list_pair(pair: Option<u8>, row: &[u8], texts: &[u8], out: &mut [u8]) -> Result<Counts, NoRoom>
    requires { Listable pair row.now texts.now }
    ensures { ListsLines (pair_lines pair row.now texts.now) out.old result out.new }
{
    // No list has more bytes than its choices have lines of the longest: one that then fits need not be measured.
    if most_lines(pair, row) <= out.len() / base_limits::ENTRY_LINE {
        return Ok(all_lines(pair, row, texts, out));
    }
    let counts = all_lines(pair, row, texts, &mut out[..0]);
    if out.len() < counts.bytes {
        return Err(NoRoom { counts });
    }
    Ok(all_lines(pair, row, texts, out))
}

// ---- texts

// Whether rules with n and m fields can have an entry.
fn pair_of(n: usize, m: usize) -> Option<u8>
    requires { n ≤ most_fields }
    ensures { result ≡ pairing_of n m }
{
    if n == 0 || n != m {
        return None;
    }
    Some(n as u8)
}

// How two texts are read, and the tables of the rules that they say. What a rule makes of a slip is no part of an overlap, so only the
// bytes of each left side are noted; of a text that is refused there are none, so that it says the rule with no fields.
pub(crate) fn note_texts(left: &[u8], right: &[u8], row: &mut [u8], texts: &mut [u8]) -> TextsNoted
    requires { (row.old ≡ blank_rows.0) × (texts.old ≡ blank_rows.1) }
    ensures { NotesTexts left.now right.now result row.new texts.new }
{
    let l = text_read::judge_left(left);
    let r = text_read::judge_left(right);
    let n = text_passes::note_side(&left[..l.end], false, row, texts);
    let m = text_passes::note_side(&right[..r.end], true, row, texts);
    TextsNoted {
        left: l.verdict,
        right: r.verdict,
        pair: pair_of(n, m),
    }
}

// THE OVERLAP LIST of the rules that two texts say, and how each is read: every choice of one candidate a field that nothing kills,
// a line for each, the first field slowest.
// Rules with different field counts have no entries, and a text that is refused says the rule with no fields, which has none.
pub fn list_texts(left: &[u8], right: &[u8], out: &mut [u8]) -> TextsListed
    ensures { TextsList left.now right.now out.old result out.new }
{
    let mut row = [0u8; pair_row::ROW_BYTES];
    let mut texts = [0u8; pair_row::TEXTS_BYTES];
    let noted = note_texts(left, right, &mut row, &mut texts);
    TextsListed {
        left: noted.left,
        right: noted.right,
        listed: list_pair(noted.pair, &row, &texts, out),
    }
}

// ---- values

// The plain text of the left side of what a rule counts as: a value counts as one with no fields, which has no text, also where only its
// right side is none that reading returns. And its size.
pub(crate) fn put_left(rule: Rule, out: &mut [u8]) -> usize
    ensures value { result ≡ length (left_plain rule) }
    ensures out_after { out.new ≡ after (left_plain rule) out.old }
{
    let side = text_accepted::rules::left_of(rule);
    let written = text_plain::write_side(side, out);
    text_write::pieces::size_of(written)
}

// The list of two rule values: that of their left sides' plain texts.
pub fn list_overlaps(left: Rule, right: Rule, out: &mut [u8]) -> Result<Counts, NoRoom>
    ensures { Lists (counted_rule left).0 (counted_rule right).0 out.old result out.new }
{
    let mut a = [0u8; base_limits::LONGEST_SIDE];
    let mut b = [0u8; base_limits::LONGEST_SIDE];
    let n = put_left(left, &mut a);
    let m = put_left(right, &mut b);
    list_texts(&a[..n], &b[..m], out).listed
}
