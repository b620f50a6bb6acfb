// Constants as values: which there are, their types, when two are one, and which ones reading can return.
ghost use Rattle.std.specs.Prelude.{◌≡◌};
ghost use Rattle.math_types.specs.Values.{kind_from};
ghost use Rattle.std.specs.List.{list_all};
ghost use Rattle.text_values.specs.constants.Constants.{is_inside, is_zero, text_ok, blank_constant, constant_kind};
ghost use Rattle.text_values.specs.constants.Constants.{same_constant, integer_ok, constant_ok, constant_blank};

use base_limits::LONGEST_STRING;
use math_types::Kind;

// A constant: an integer's sign, whether it is below zero, and its magnitude; or a string's length. Its bytes stand beside it:
// a public `Term` may have bytes beside any form, and functions answer for each such value.
#[derive(Clone, Copy)]
pub enum Constant {
    Int(bool, u32),
    Str(u8),
}

pub(crate) fn blank() -> Constant
    ensures { result ≡ blank_constant }
{
    Constant::Int(false, 0)
}

// ---- the bytes of a string

fn is_inside(b: u8) -> bool
    ensures { result ≡ is_inside b }
{
    b' ' <= b && b <= b'~' && b != b'"'
}

fn are_inside(s: &[u8]) -> bool
    ensures { result ≡ list_all is_inside s.now }
{
    s.iter().all(|b| is_inside(*b))
}

fn are_zero(s: &[u8]) -> bool
    ensures { result ≡ list_all is_zero s.now }
{
    s.iter().all(|b| *b == 0)
}

// A string of n bytes, and zeros behind it.
pub(crate) fn is_text(text: &[u8; LONGEST_STRING], n: usize) -> bool
    ensures { result ≡ text_ok n text.now }
{
    match text.split_at_checked(n) {
        Some((used, rest)) => are_inside(used) && are_zero(rest),
        None => false,
    }
}

// ---- a constant, each with the bytes beside it

// Whether two constants are one.
pub fn same(a: Constant, s: [u8; LONGEST_STRING], b: Constant, t: [u8; LONGEST_STRING]) -> bool
    ensures { result ≡ same_constant a b s t }
{
    match (a, b) {
        (Constant::Int(x, m), Constant::Int(y, n)) => m == n && x == y,
        (Constant::Str(k), Constant::Str(l)) => k == l && s == t,
        _ => false,
    }
}

pub fn kind_of(c: Constant) -> Kind
    ensures { result ≡ kind_from (constant_kind c) }
{
    match c {
        Constant::Int(_, _) => Kind::Integer,
        Constant::Str(_) => Kind::String,
    }
}

// An integer that reading can return: within the limit of its sign, and no minus zero.
fn is_integer(minus: bool, n: u32) -> bool
    ensures { result ≡ integer_ok minus n }
{
    n <= text_grammar::limit(minus) && !(minus && n == 0)
}

// A constant that reading can return.
pub(crate) fn is_within(c: Constant, text: &[u8; LONGEST_STRING]) -> bool
    ensures { result ≡ constant_ok c text.now }
{
    match c {
        Constant::Int(minus, n) => is_integer(minus, n) && is_text(text, 0),
        Constant::Str(k) => is_text(text, k as usize),
    }
}

pub(crate) fn is_blank(c: Constant, text: &[u8; LONGEST_STRING]) -> bool
    ensures { result ≡ constant_blank c text.now }
{
    match c {
        Constant::Int(minus, n) => !minus && n == 0 && is_text(text, 0),
        Constant::Str(_) => false,
    }
}
