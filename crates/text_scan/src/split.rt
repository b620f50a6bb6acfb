// What the grammar says of a rule text: one side, two with an arrow between them, or where it stops being a rule text.
// A side is told by the grammar of one side alone, which stops at the arrow's `=` everywhere but in a string.
ghost use Rattle.std.specs.Prelude.{◌≡◌, ◌<◌, length, take, get_or};
ghost use Rattle.std.proofs.Math.Option.{none, some};
ghost use Rattle.text_grammar.specs.Machine.{place2};
ghost use Rattle.text_scan.specs.split.Splits.{split_of};

#[derive(Clone, Copy)]
pub enum Split {
    // one side
    One,
    // a left side of so many bytes, the arrow, and a right side
    Two(usize),
    // the place of refusal 2
    Stops(usize),
}

// Behind a left side of p bytes stands `=`.
fn behind_equal(text: &[u8], p: usize) -> Split
    requires text_value { (place2 text.now ≡ some p) × (p < length text.now) }
    requires p_value { (get_or text.now p 0 ≡ 61) × (place2 (take p text.now) ≡ none) }
    ensures { result ≡ split_of text.now }
{
    if text.len() <= p + 1 || text[p + 1] != b'>' {
        return Split::Stops(p + 1);
    }
    match crate::grammar_place(&text[p + 2..]) {
        Some(q) => Split::Stops(p + 2 + q),
        None => Split::Two(p),
    }
}

// The text is of one side up to p, and not beyond.
fn stopped_at(text: &[u8], p: usize) -> Split
    requires { place2 text.now ≡ some p }
    ensures { result ≡ split_of text.now }
{
    if text.len() <= p || text[p] != b'=' {
        return Split::Stops(p);
    }
    match crate::grammar_place(&text[..p]) {
        Some(_) => Split::Stops(p),
        None => behind_equal(text, p),
    }
}

pub fn split_of(text: &[u8]) -> Split
    ensures { result ≡ split_of text.now }
{
    match crate::grammar_place(text) {
        Some(p) => stopped_at(text, p),
        None => Split::One,
    }
}
