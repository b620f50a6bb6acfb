// The library that a program in another language links: it says its version, a rule text is read and checked, the overlaps of two rules are
// listed, their counts are asked for first, it is said whether there are any, and a rule is carried out on a slip.
// Numbers and byte slices cross the boundary, and structs of numbers in C's layout; to C a slice is a pointer and a length.
// A name belongs to the whole program, as in C, so each begins with the library's.
#![tactic(auto)]

ghost use Rattle.std.specs.Prelude.{◌≡◌};
ghost use Rattle.text_grammar.specs.rules.Read.{read_rule};
ghost use Rattle.yopobrush.specs.Version.{library_version};
ghost use Rattle.yopobrush.specs.Answers.{reading_of, LibraryLists, LibraryOverlaps};
ghost use Rattle.yopobrush.specs.Values.{reading_by, listing_by, overlapping_by};
ghost use Rattle.yopobrush.specs.Asks.{LibraryAsks, LibraryCommits};
ghost use Rattle.yopobrush.specs.AskValues.{asking_by, committing_by};
ghost use Rattle.yopobrush.specs.Carries.{LibraryCarries};
ghost use Rattle.yopobrush.specs.CarryValues.{number_by, carrying_by};

use apply_rules::Carry;
use overlap_counts::{CommitRefusal, Counts, NoRoom};
use text_refusals::verdicts::{Refusal, Verdict};
use text_write::TooSmall;

// ---- the version

const MAJOR: u64 = 0;
// The last change of document 02 that stands.
const MINOR: u64 = 5;

const PATCH: u64 = 0;
// How many values a byte has.
const BYTE_VALUES: u64 = 256;

// Says the version of the library as one number: major, minor and patch, a byte each.
pub fn yopobrush_version() -> u64
    ensures { result ≡ library_version }
{
    (MAJOR * BYTE_VALUES + MINOR) * BYTE_VALUES + PATCH
}

// ---- reading and listing

// How a rule text is read: the refusal's number and its place, or 0 and 0 where there is none.
#[repr(C)]
#[derive(Clone, Copy)]
pub struct Reading {
    pub refusal: u64,
    pub place: u64,
}

// How each text is read; whether the list is refused, by 8, or of a commit by 13, or by none, which is 0; and how many entries and bytes it
// has, or 0 and 0 with 13.
#[repr(C)]
#[derive(Clone, Copy)]
pub struct Listing {
    pub left: Reading,
    pub right: Reading,
    pub refusal: u64,
    pub entries: u64,
    pub bytes: u64,
}

fn reading_of(v: Verdict) -> Reading
    ensures { result ≡ reading_by v }
{
    match v {
        Ok(()) => Reading {
            refusal: 0,
            place: 0,
        },
        Err(Refusal { reason, place }) => Reading {
            refusal: text_refusals::verdicts::number(reason) as u64,
            place: place as u64,
        },
    }
}

fn listing_of(left: Reading, right: Reading, listed: Result<Counts, NoRoom>) -> Listing
    ensures { result ≡ listing_by left right listed }
{
    let (refusal, Counts { entries, bytes }) = match listed {
        Ok(counts) => (0, counts),
        Err(NoRoom { counts }) => (8, counts),
    };
    Listing {
        left,
        right,
        refusal,
        entries: entries as u64,
        bytes: bytes as u64,
    }
}

// Reads a rule text and says how it is read.
pub fn yopobrush_read_rule(text: &[u8]) -> Reading
    ensures { result ≡ reading_of (read_rule text.now) }
{
    reading_of(text_read::read_rule(text).verdict)
}

// Lists the overlaps of two rule texts into the lent bytes. A text that is refused says the rule with no fields, which has no overlaps.
pub fn yopobrush_list_overlaps(left: &[u8], right: &[u8], out: &mut [u8]) -> Listing
    ensures { LibraryLists left.now right.now out.old result out.new }
{
    let said = overlap_list::list_texts(left, right, out);
    listing_of(reading_of(said.left), reading_of(said.right), said.listed)
}

// ---- asking first

// How each text is read, and how many entries and bytes the list has.
#[repr(C)]
#[derive(Clone, Copy)]
pub struct Asking {
    pub left: Reading,
    pub right: Reading,
    pub entries: u64,
    pub bytes: u64,
}

fn asking_of(left: Reading, right: Reading, counts: Counts) -> Asking
    ensures { result ≡ asking_by left right counts }
{
    Asking {
        left,
        right,
        entries: counts.entries as u64,
        bytes: counts.bytes as u64,
    }
}

fn committing_of(left: Reading, right: Reading, committed: Result<Counts, CommitRefusal>) -> Listing
    ensures { result ≡ committing_by left right committed }
{
    match committed {
        Ok(counts) => listing_of(left, right, Ok(counts)),
        Err(CommitRefusal::NoRoom(counts)) => listing_of(left, right, Err(NoRoom { counts })),
        Err(CommitRefusal::Stale) => Listing {
            left,
            right,
            refusal: 13,
            entries: 0,
            bytes: 0,
        },
    }
}

// Says how many entries and bytes the list of two rule texts has, and has no buffer. A text that is refused says the rule with no fields,
// which has none.
pub fn yopobrush_ask_overlaps(left: &[u8], right: &[u8]) -> Asking
    ensures { LibraryAsks left.now right.now result }
{
    let asked = overlap_list::asking::ask_texts(left, right);
    asking_of(
        reading_of(asked.left),
        reading_of(asked.right),
        asked.counts,
    )
}

// Lists the overlaps of two rule texts into the lent bytes where the counts are those of their list.
pub fn yopobrush_commit_overlaps(
    entries: u64,
    bytes: u64,
    left: &[u8],
    right: &[u8],
    out: &mut [u8],
) -> Listing
    ensures { LibraryCommits (record { entries = entries; bytes = bytes }) left.now right.now
        out.old result out.new }
{
    let asked = Counts {
        entries: entries as usize,
        bytes: bytes as usize,
    };
    let made = overlap_list::asking::commit_texts(asked, left, right, out);
    committing_of(
        reading_of(made.left),
        reading_of(made.right),
        made.committed,
    )
}

// ---- whether they overlap

// How each text is read, and whether their rules overlap: 1 for yes, 0 for no.
#[repr(C)]
#[derive(Clone, Copy)]
pub struct Overlapping {
    pub left: Reading,
    pub right: Reading,
    pub overlap: u64,
}

fn overlapping_of(left: Reading, right: Reading, overlap: bool) -> Overlapping
    ensures { result ≡ overlapping_by left right overlap }
{
    Overlapping {
        left,
        right,
        overlap: overlap as u64,
    }
}

// Says whether the rules of two texts overlap, which is whether their list has an entry, without making it. A text that is refused says
// the rule with no fields, which overlaps none.
pub fn yopobrush_texts_overlap(left: &[u8], right: &[u8]) -> Overlapping
    ensures { LibraryOverlaps left.now right.now result }
{
    let met = overlap_list::shared::texts_overlap(left, right);
    overlapping_of(reading_of(met.left), reading_of(met.right), met.overlap)
}

// ---- carrying out

// How each text is read; the answer, which is 0 for no, 1 for yes, 11 for a result with a field of more than 64 terms, or 8 where the text
// has no room; and how many bytes the text has.
#[repr(C)]
#[derive(Clone, Copy)]
pub struct Carrying {
    pub rule: Reading,
    pub slip: Reading,
    pub answer: u64,
    pub bytes: u64,
}

fn number_of(answer: Carry) -> u64
    ensures { result ≡ number_by answer }
{
    match answer {
        Carry::Yes => 1,
        Carry::No => 0,
        Carry::TooLong => 11,
    }
}

fn carrying_of(
    rule: Reading,
    slip: Reading,
    answer: u64,
    written: Result<usize, TooSmall>,
) -> Carrying
    ensures { result ≡ carrying_by rule slip answer written }
{
    match written {
        Ok(bytes) => Carrying {
            rule: rule,
            slip: slip,
            answer: answer,
            bytes: bytes as u64,
        },
        Err(e) => Carrying {
            rule: rule,
            slip: slip,
            answer: 8,
            bytes: e.needed as u64,
        },
    }
}

// Carries out the rule text's rule on the slip text's slip, and writes the plain text of the result, or of the slip where there is none,
// into the lent bytes. A text that is refused says the rule, or the slip, with no fields.
pub fn yopobrush_carry_out(rule: &[u8], slip: &[u8], out: &mut [u8]) -> Carrying
    ensures { LibraryCarries rule.now slip.now out.old result out.new }
{
    let r = text_read::read_rule(rule);
    let s = text_read::read_slip(slip);
    let rule_verdict = r.verdict;
    let slip_verdict = s.verdict;
    let c = apply_rules::carry_out(r.rule, s.slip);
    let answer = c.answer;
    let given = c.slip;
    let written = text_plain::slips::write_slip(given, out);
    carrying_of(
        reading_of(rule_verdict),
        reading_of(slip_verdict),
        number_of(answer),
        written,
    )
}
