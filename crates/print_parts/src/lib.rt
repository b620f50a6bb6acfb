// What the answers to a line have in common: room, the title, a refusal, and the place behind a line's tab.
#![tactic(auto)]

ghost use Rattle.std.specs.Prelude.{◌≡◌, ◌++◌, ◌+◌, min, length, replicate};
ghost use Rattle.text_grammar.specs.Ascii.{newline};
ghost use Rattle.text_grammar.specs.Numbers.{digits_of};
ghost use Rattle.text_refusals.specs.verdicts.Verdicts.{number_of};
ghost use Rattle.text_write.specs.pieces.Refusals.{number_at};
ghost use Rattle.text_write.specs.pieces.Placed.{PlacedOn};

pub mod sizes; // how much a part of a line asks for

use text_refusals::verdicts::Reason;
use text_write::pieces::Page;

// Room for N bytes.
pub fn room<const N: usize>() -> [u8; N]
    ensures zeros { result ≡ replicate N 0 }
    ensures long { length result ≡ N }
{
    [0; N]
}

// The title of the answer to line number k: what was done, the number, the line's end.
pub fn put_title(page: &mut Page, words: &[u8], k: u64)
    ensures { PlacedOn (words.now ++ digits_of k ++ newline) page.old page.new }
{
    page.put_bytes(words);
    page.put_number(k);
    page.put_bytes(b"\n");
}

// What was refused, the refusal's number and its place.
pub fn put_refusal(page: &mut Page, words: &[u8], reason: Reason, place: usize)
    ensures { PlacedOn (words.now ++ number_at (number_of reason) place) page.old page.new }
{
    page.put_bytes(words);
    page.put_number_at(text_refusals::verdicts::number(reason) as u64, place as u64);
}

// The place behind the tab of a line of n bytes, or the line's end.
pub fn behind(tab: usize, n: usize) -> usize
    ensures { result ≡ min (tab + 1) n }
{
    tab.saturating_add(1).min(n)
}
