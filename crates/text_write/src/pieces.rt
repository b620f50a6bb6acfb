// Pieces of a text, put one behind the other into lent bytes as far as there is room; and the whole text, given or not at all.
ghost use Rattle.std.specs.Prelude.{◌≡◌, ◌≤◌, length, take};
ghost use Rattle.text_grammar.specs.Numbers.{digits_of};
ghost use Rattle.text_grammar.specs.Plain.{term_text};
ghost use Rattle.text_values.specs.Values.{view_term};
ghost use Rattle.text_write.specs.Answers.{Writes};
ghost use Rattle.base_bytes.specs.Bytes.{index_of};
ghost use Rattle.text_write.specs.pieces.Refusals.{number_at};
ghost use Rattle.text_write.specs.pieces.Sizes.{size_of};
ghost use Rattle.text_write.specs.pieces.Placed.{Placed, PlacedOn};

use crate::TooSmall;
use text_values::Term;

// How many bytes a writer's answer speaks of.
pub fn size_of(w: Result<usize, TooSmall>) -> usize
    ensures { result ≡ size_of w }
{
    match w {
        Ok(n) => n,
        Err(e) => e.needed,
    }
}

// ---- pieces

// The text at a place, as far as there is room, and the place behind it.
pub(crate) fn put_bytes(text: &[u8], out: &mut [u8], at: usize) -> usize
    ensures { Placed text.now at out.old result out.new }
{
    let from = at.min(out.len());
    at + base_bytes::copy(text, &mut out[from..])
}

// Lent bytes that pieces of a text are put into, one behind the other as far as there is room, and the place that is reached.
#[derive(Drop)]
pub struct Page<'a> {
    pub bytes: &'a mut [u8],
    pub at: usize,
}

impl<'a> Page<'a> {
    pub fn put_bytes(&mut self, text: &[u8])
        ensures { PlacedOn text.now self.old self.new }
    {
        self.at = put_bytes(text, self.bytes, self.at);
    }

    // A number's digits.
    pub fn put_number(&mut self, n: u64)
        ensures { PlacedOn (digits_of n) self.old self.new }
    {
        let mut digits = [0u8; crate::LONGEST_NUMBER];
        let size = size_of(crate::write_number(n, &mut digits));
        self.put_bytes(&digits[..size]);
    }

    // A term's text.
    pub fn put_term(&mut self, t: Term)
        ensures { PlacedOn (term_text (view_term t)) self.old self.new }
    {
        let mut text = [0u8; base_limits::LONGEST_TERM];
        let size = size_of(crate::write_term(t, &mut text));
        self.put_bytes(&text[..size]);
    }

    // A refusal's number and its place.
    pub fn put_number_at(&mut self, n: u64, place: u64)
        ensures { PlacedOn (number_at n place) self.old self.new }
    {
        self.put_number(n);
        self.put_bytes(b" at ");
        self.put_number(place);
    }

    // What was put from the front of the bytes on, into the lent bytes, or its size where these are too few.
    pub fn give(&self, out: &mut [u8]) -> Result<usize, TooSmall>
        ensures { Writes (take self.now.at self.now.bytes.now) out.old result out.new }
    {
        let n = self.at.min(self.bytes.len());
        give(&self.bytes[..n], out)
    }
}

// ---- lines

// The place of a line's first tab, or the place behind the line.
pub fn tab_place(line: &[u8]) -> usize
    ensures { (result ≡ index_of 9 line.now) × (result ≤ length line.now) }
{
    base_bytes::find(line, b'\t')
}

// The text into the lent bytes, or its size where they are too few.
pub fn give(text: &[u8], out: &mut [u8]) -> Result<usize, TooSmall>
    ensures { Writes text.now out.old result out.new }
{
    if out.len() < text.len() {
        return Err(TooSmall { needed: text.len() });
    }
    Ok(base_bytes::copy(text, out))
}
