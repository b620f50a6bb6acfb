// What a program in another language links: each function of `yopobrush` under its name in C, with the same contract.
// Numbers and byte slices cross the boundary, and structs of numbers in C's layout; to C a slice is a pointer and a length.
// A name belongs to the whole program, as in C, so each begins with the library's.
#![tactic(auto)]

ghost use Rattle.std.specs.Prelude.{◌≡◌};
ghost use Rattle.text_grammar.specs.rules.Read.{read_rule};
ghost use Rattle.yopobrush.specs.Version.{library_version};
ghost use Rattle.yopobrush.specs.Answers.{reading_of, LibraryLists, LibraryOverlaps};
ghost use Rattle.yopobrush.specs.Asks.{LibraryAsks, LibraryCommits};
ghost use Rattle.yopobrush.specs.Carries.{LibraryCarries};

use yopobrush::{Asking, Carrying, Listing, Overlapping, Reading};

// Says the version of the library as one number: major, minor and patch, a byte each.
#[unsafe(no_mangle)]
pub extern "C" fn yopobrush_version() -> u64
    ensures { result ≡ library_version }
{
    yopobrush::yopobrush_version()
}

// Reads a rule text and says how it is read.
#[unsafe(no_mangle)]
pub extern "C" fn yopobrush_read_rule(text: &[u8]) -> Reading
    ensures { result ≡ reading_of (read_rule text.now) }
{
    yopobrush::yopobrush_read_rule(text)
}

// Lists the overlaps of two rule texts into the lent bytes. A text that is refused says the rule with no fields, which has no overlaps.
#[unsafe(no_mangle)]
pub extern "C" fn yopobrush_list_overlaps(left: &[u8], right: &[u8], out: &mut [u8]) -> Listing
    ensures { LibraryLists left.now right.now out.old result out.new }
{
    yopobrush::yopobrush_list_overlaps(left, right, out)
}

// Says how many entries and bytes the list of two rule texts has, and has no buffer. A text that is refused says the rule with no fields,
// which has none.
#[unsafe(no_mangle)]
pub extern "C" fn yopobrush_ask_overlaps(left: &[u8], right: &[u8]) -> Asking
    ensures { LibraryAsks left.now right.now result }
{
    yopobrush::yopobrush_ask_overlaps(left, right)
}

// Lists the overlaps of two rule texts into the lent bytes where the counts are those of their list.
#[unsafe(no_mangle)]
pub extern "C" fn yopobrush_commit_overlaps(
    entries: u64,
    bytes: u64,
    left: &[u8],
    right: &[u8],
    out: &mut [u8],
) -> Listing
    ensures { LibraryCommits (record { entries = entries; bytes = bytes }) left.now right.now
        out.old result out.new }
{
    yopobrush::yopobrush_commit_overlaps(entries, bytes, left, right, out)
}

// Says whether the rules of two texts overlap, which is whether their list has an entry, without making it. A text that is refused says
// the rule with no fields, which overlaps none.
#[unsafe(no_mangle)]
pub extern "C" fn yopobrush_texts_overlap(left: &[u8], right: &[u8]) -> Overlapping
    ensures { LibraryOverlaps left.now right.now result }
{
    yopobrush::yopobrush_texts_overlap(left, right)
}

// Carries out the rule text's rule on the slip text's slip, and writes the plain text of the result, or of the slip where there is none,
// into the lent bytes. A text that is refused says the rule, or the slip, with no fields.
#[unsafe(no_mangle)]
pub extern "C" fn yopobrush_carry_out(rule: &[u8], slip: &[u8], out: &mut [u8]) -> Carrying
    ensures { LibraryCarries rule.now slip.now out.old result out.new }
{
    yopobrush::yopobrush_carry_out(rule, slip, out)
}
