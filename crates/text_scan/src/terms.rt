// The value of the term that is written at a place of a text.
ghost use Rattle.std.specs.Prelude.{◌≡◌, ◌≤◌, ◌<◌, length, take, drop};
ghost use Rattle.base_limits.specs.Limits.{longest_string};
ghost use Rattle.text_grammar.specs.Walk.{front};
ghost use Rattle.text_values.specs.canonical.Filled.{pad};
ghost use Rattle.text_scan.specs.declared.Spelled.TheVariants.{Con};
ghost use Rattle.text_scan.specs.Lexemes.{lexeme_of};
ghost use Rattle.text_scan.specs.terms.Terms.{term_from};

use crate::{Lexeme, Literal, Spelled};
use text_values::constants::Constant;
use text_values::{Form, Term};

// The bytes of a string: n of the text from `from` on, as far as there are any.
fn string_at(text: &[u8], from: usize, n: usize) -> [u8; base_limits::LONGEST_STRING]
    requires { (from ≤ length text.now) × (n ≤ longest_string) }
    ensures { result ≡ pad longest_string 0 (take n (drop from text.now)) }
{
    let mut bytes = [0u8; base_limits::LONGEST_STRING];
    let there = n.min(text.len() - from);
    bytes[..there].copy_from_slice(&text[from..from + there]);
    bytes
}

// The constant at a place, which is written so.
fn constant_at(text: &[u8], place: usize, p: Lexeme, l: Literal) -> Term
    requires { (place < length text.now) × (p.what ≡ Con l) × (p ≡ lexeme_of (front (drop place text.now))) }
    ensures { result ≡ term_from (front (drop place text.now)) }
{
    match l {
        Literal::Int(minus) => Term {
            form: Form::Con(Constant::Int(text_grammar::sign_of(minus, p.value), p.value)),
            text: [0; base_limits::LONGEST_STRING],
        },
        Literal::Str => {
            let n = p.size.min(base_limits::LONGEST_STRING);
            let bytes = string_at(text, place + 1, n);
            Term {
                form: Form::Con(Constant::Str(n as u8)),
                text: bytes,
            }
        }
    }
}

// The term at a place, told by its first byte. Where none begins, as past the end, it is the blank one.
pub fn term_at(text: &[u8], place: usize) -> Term
    ensures { result ≡ term_from (front (drop place text.now)) }
{
    if text.len() <= place {
        return text_values::blank_term();
    }
    let p = crate::lexeme_at(text, place);
    match p.what {
        Spelled::Con(l) => constant_at(text, place, p, l),
        Spelled::Var(k) => Term {
            form: Form::Var(k, (p.value % 256) as u8),
            text: [0; base_limits::LONGEST_STRING],
        },
        Spelled::Empty => text_values::blank_term(),
    }
}
