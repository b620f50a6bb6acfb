// A constant's text: how many bytes, and the bytes, into room that is known.
ghost use Rattle.std.specs.Prelude.{◌≡◌, List, ℕ, ◌≤◌, length, take};
ghost use Rattle.base_limits.specs.Limits.{longest_string, longest_term};
ghost use Rattle.math_terms.specs.Terms.{con};
ghost use Rattle.text_grammar.specs.Numbers.{digits_of};
ghost use Rattle.text_grammar.specs.constants.Constants.{signed, raw_str, spell_con};
ghost use Rattle.text_grammar.specs.Plain.{term_text};
ghost use Rattle.text_values.specs.constants.Constants.{view_constant};
ghost use Rattle.text_write.specs.Room.{Room, Put};

use text_values::constants::Constant;

// The same for any bytes that stand beside the constant.
pub(crate) fn size(c: Constant) -> usize
    ensures { ((s : List ℕ) → length s ≡ longest_string → result ≡ length (term_text (con (view_constant c s)))) × (result ≤ longest_term) }
{
    match c {
        Constant::Int(minus, n) => text_grammar::sign_size(minus) + crate::digits_size(n as u64),
        Constant::Str(k) => (k as usize).min(base_limits::LONGEST_STRING) + 2,
    }
}

// An integer with its sign.
fn put_integer(minus: bool, n: u32, out: &mut [u8], at: usize) -> usize
    requires { Room (signed minus (digits_of n)) at out.old }
    ensures { Put (signed minus (digits_of n)) at out.old result out.new }
{
    if minus {
        out[at] = b'-';
        return crate::put_digits(n as u64, out, at + 1);
    }
    crate::put_digits(n as u64, out, at)
}

// A string between its quotes.
fn put_string(text: [u8; base_limits::LONGEST_STRING], k: u8, out: &mut [u8], at: usize) -> usize
    requires { Room (spell_con (raw_str (take k text))) at out.old }
    ensures { Put (spell_con (raw_str (take k text))) at out.old result out.new }
{
    let n = (k as usize).min(base_limits::LONGEST_STRING);
    out[at] = b'"';
    let p = crate::pieces::put_bytes(&text[..n], out, at + 1);
    out[p] = b'"';
    p + 1
}

pub(crate) fn put(
    c: Constant,
    text: [u8; base_limits::LONGEST_STRING],
    out: &mut [u8],
    at: usize,
) -> usize
    requires { Room (term_text (con (view_constant c text))) at out.old }
    ensures { Put (term_text (con (view_constant c text))) at out.old result out.new }
{
    match c {
        Constant::Int(minus, n) => put_integer(minus, n, out, at),
        Constant::Str(k) => put_string(text, k, out, at),
    }
}
