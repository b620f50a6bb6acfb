// Writing: a number's digits and a term's text, into lent bytes.
// The bytes are counted first, so that a buffer that is too small keeps its old bytes (refusal 8);
// then they are written into room that is known.
#![tactic(auto)]

ghost use Rattle.std.specs.Prelude.{◌≡◌, ◌≤◌, length};
ghost use Rattle.base_limits.specs.Limits.{longest_term};
ghost use Rattle.text_write.specs.Sizes.{longest_number};
ghost use Rattle.math_types.specs.Values.{kind_of};
ghost use Rattle.text_grammar.specs.Letters.{letter};
ghost use Rattle.text_grammar.specs.Numbers.{digits_of};
ghost use Rattle.text_grammar.specs.Plain.{term_text};
ghost use Rattle.text_values.specs.Values.{view_term};
ghost use Rattle.text_write.specs.Room.{Room, Put};
ghost use Rattle.text_write.specs.Answers.{Writes};

mod constants; // a constant's text
pub mod pieces; // pieces of a text, one behind the other

use math_types::Kind;
use text_values::{Form, Term};

// A writer answers how many bytes it wrote, or this where the lent bytes are too few, and then it writes none.
// `told` of specs/Answers has document 01's number of each.
#[derive(Clone, Copy, PartialEq, Eq)]
pub struct TooSmall {
    // how many bytes would be needed
    pub needed: usize,
}

// The digits of the largest number of 64 bits.
pub const LONGEST_NUMBER: usize = 20;

// ---- how many bytes. Each count has a bound beside it, so that the sums of counts can't wrap.

// Document 01: "integers without leading zeros".
fn digits_size(n: u64) -> usize
    ensures { (result ≡ length (digits_of n)) × (result ≤ longest_number) }
{
    let mut size: usize = 1;
    let mut m = n;
    // Stays a `while`: it divides until one digit is left, and has no index.
    while 9 < m {
        m = m / 10;
        size += 1;
    }
    size
}

fn term_size(t: Term) -> usize
    ensures { (result ≡ length (term_text (view_term t))) × (result ≤ longest_term) }
{
    let form = t.form;
    match form {
        Form::Con(c) => constants::size(c),
        Form::Var(_, n) => digits_size(n as u64) + 1,
    }
}

// ---- the bytes, into room that is known; each returns the place behind them

fn put_digits(n: u64, out: &mut [u8], at: usize) -> usize
    requires { Room (digits_of n) at out.old }
    ensures { Put (digits_of n) at out.old result out.new }
{
    if n < 10 {
        out[at] = b'0' + (n as u8);
        return at + 1;
    }
    let p = put_digits(n / 10, out, at);
    out[p] = b'0' + ((n % 10) as u8);
    p + 1
}

// A type's letter.
fn letter(k: Kind) -> u8
    ensures { result ≡ letter (kind_of k) }
{
    text_grammar::letter_at(math_types::rank(k) as u8)
}

fn put_term(t: Term, out: &mut [u8], at: usize) -> usize
    requires { Room (term_text (view_term t)) at out.old }
    ensures { Put (term_text (view_term t)) at out.old result out.new }
{
    let form = t.form;
    match form {
        Form::Con(c) => {
            let text = t.text;
            constants::put(c, text, out, at)
        }
        Form::Var(k, n) => {
            out[at] = letter(k);
            put_digits(n as u64, out, at + 1)
        }
    }
}

// ---- the public functions

// A term's text.
pub(crate) fn write_term(t: Term, out: &mut [u8]) -> Result<usize, TooSmall>
    ensures writes { Writes (term_text (view_term t)) out.old result out.new }
    ensures t_len_bound { length (term_text (view_term t)) ≤ longest_term }
{
    let long = term_size(t);
    if out.len() < long {
        return Err(TooSmall { needed: long });
    }
    Ok(put_term(t, out, 0))
}

// A number's digits, without leading zeros.
pub(crate) fn write_number(n: u64, out: &mut [u8]) -> Result<usize, TooSmall>
    ensures { Writes (digits_of n) out.old result out.new }
{
    let size = digits_size(n);
    if out.len() < size {
        return Err(TooSmall { needed: size });
    }
    Ok(put_digits(n, out, 0))
}
