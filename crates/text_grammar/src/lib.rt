// Rules and slips as text: the grammar, the refusals and their places, plain text.
// Specs and their proofs; code only for the letters of types, and for signs.
#![tactic(auto)]

ghost use Rattle.std.specs.Prelude.{◌≡◌, ◌≤◌};
ghost use Rattle.text_grammar.specs.Letters.{letter_at};
ghost use Rattle.text_grammar.specs.constants.Constants.{sign_size, limit, sign_of};

// Document 01: "a letter for its type (`i` integer, `s` string, `a` atom, `l` list)", by the type's rank; 0 for what is no rank.
pub fn letter_at(rank: u8) -> u8
    ensures { result ≡ letter_at rank }
{
    match rank {
        0 => b'i',
        1 => b's',
        2 => b'a',
        3 => b'l',
        _ => 0,
    }
}

// The largest magnitude of an integer, below zero or not.
pub fn limit(minus: bool) -> u32
    ensures { result ≡ limit minus }
{
    if minus {
        base_limits::LOWEST_INTEGER
    } else {
        base_limits::LARGEST_INTEGER
    }
}

// The sign of a magnitude. Document 02: "`-0` equals `0`".
pub fn sign_of(minus: bool, n: u32) -> bool
    ensures { result ≡ sign_of minus n }
{
    if minus {
        return n != 0;
    }
    false
}

// How many bytes the sign has.
pub fn sign_size(minus: bool) -> usize
    ensures value { result ≡ sign_size minus }
    ensures upper_bound { result ≤ 1 }
{
    if minus { 1 } else { 0 }
}
