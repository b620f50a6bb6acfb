// Texts from the left, byte by byte: where a text stops being of the grammar, and which term stands at a place.
// The place goes by one table over all bytes (tables.rt); what its classes mean, and that they are the grammar's, is in specs/Classes.antt.
#![tactic(auto)]

ghost use Rattle.std.specs.Prelude.{◌≡◌, ◌<◌, ◌≤◌, length, drop};
ghost use Rattle.text_grammar.specs.Bytes.{begins};
ghost use Rattle.text_grammar.specs.Machine.{place2};
ghost use Rattle.text_grammar.specs.Walk.{leading_digits, until_quote, front};
ghost use Rattle.text_scan.specs.Classes.{fine_of};
ghost use Rattle.text_scan.specs.Tables.{class_number};
ghost use Rattle.text_scan.specs.Lexemes.{counted, with_digits, part_of, lexeme_of, begun};
ghost use Rattle.text_scan.specs.Places.{found_of};
ghost use Rattle.text_scan.specs.Steps.{next};

pub mod split; // the sides of a rule text
pub mod terms; // the value of the term at a place
mod tables;

use math_types::Kind;
pub use tables::ByteClass;
use tables::{CLASSES, Reading, STEPS};

// What a constant is written as.
#[derive(Clone, Copy)]
pub enum Literal {
    // with a minus or not
    Int(bool),
    Str,
}

// What a term is written as.
#[derive(Clone, Copy)]
pub enum Spelled {
    Con(Literal),
    Var(Kind),
    Empty,
}

// A term as it is written: how many digits an integer or a variable has, or how many bytes a string, and the digits' value.
// The value is exact up to the largest magnitude of an integer and stops one above it, so that any number of digits can be read.
#[derive(Clone, Copy)]
pub struct Lexeme {
    pub what: Spelled,
    pub size: usize,
    pub value: u32,
}

// How many digits stand at a place, and their value, kept as a lexeme keeps it.
#[derive(Clone, Copy)]
struct Digits {
    count: usize,
    value: u32,
}

// A byte's class: one of the finer ones, since the five of document 01 do not decide the next state.
pub fn class_of(b: u8) -> ByteClass
    ensures { class_number result ≡ fine_of b }
{
    CLASSES[b as usize]
}

// The place of refusal 2, where there is one. Document 01: "the first byte that no text of the grammar could have there,
// or the length where the text stops early".
pub fn grammar_place(text: &[u8]) -> Option<usize>
    ensures { result ≡ found_of (place2 text.now) }
{
    let mut state = Reading::Before;
    for (i, b) in text.iter().enumerate() {
        let class = CLASSES[*b as usize];
        state = STEPS[state as usize][class as usize];
        if state == Reading::Refused {
            return Some(i);
        }
    }
    match state {
        Reading::InDigits | Reading::Behind => None,
        _ => Some(text.len()),
    }
}

// One above the magnitude of the lowest integer, which is the largest of any.
const TOO_LARGE: u64 = base_limits::LOWEST_INTEGER as u64 + 1;

// The digits from a place on. All values past the largest magnitude count as the same, so that no run of digits overflows.
// Capping at each digit gives what capping at the end would, for more digits make no value smaller.
fn digits_from(text: &[u8], at: usize) -> Digits
    requires { at ≤ length text.now }
    ensures { result ≡ counted (leading_digits (drop at text.now)) }
{
    let mut v: u64 = 0;
    for (i, b) in text[at..].iter().enumerate() {
        if !b.is_ascii_digit() {
            return Digits {
                count: i,
                value: v as u32,
            };
        }
        v = (v * 10 + (*b - b'0') as u64).min(TOO_LARGE);
    }
    Digits {
        count: text.len() - at,
        value: v as u32,
    }
}

// How many bytes stand before the first quote, from a place on: those of a string whose opening quote is passed.
fn quoted_from(text: &[u8], at: usize) -> usize
    requires { at ≤ length text.now }
    ensures { result ≡ length (until_quote (drop at text.now)) }
{
    text[at..].iter().take_while(|b| **b != b'"').count()
}

// What a byte begins.
fn begun_by(b: u8) -> Spelled
    ensures { result ≡ begun (begins b) }
{
    match b {
        b'0'..=b'9' => Spelled::Con(Literal::Int(false)),
        b'-' => Spelled::Con(Literal::Int(true)),
        b'"' => Spelled::Con(Literal::Str),
        b'i' => Spelled::Var(Kind::Integer),
        b's' => Spelled::Var(Kind::String),
        b'a' => Spelled::Var(Kind::Atom),
        b'l' => Spelled::Var(Kind::List),
        _ => Spelled::Empty,
    }
}

fn with_digits(what: Spelled, d: Digits) -> Lexeme
    ensures { result ≡ with_digits what d }
{
    Lexeme {
        what,
        size: d.count,
        value: d.value,
    }
}

// What a term is made of: digits behind so many bytes, bytes between quotes, or a word.
#[derive(Clone, Copy)]
enum Part {
    Numeral(usize),
    Text,
    Word,
}

fn part_of(what: Spelled) -> Part
    ensures { result ≡ part_of what }
{
    match what {
        Spelled::Con(Literal::Int(minus)) => Part::Numeral(text_grammar::sign_size(minus)),
        Spelled::Con(Literal::Str) => Part::Text,
        Spelled::Var(_) => Part::Numeral(1),
        Spelled::Empty => Part::Word,
    }
}

// The term that stands at a place, told by its first byte. Where none begins, as past the end, it counts as `empty`.
pub fn lexeme_at(text: &[u8], at: usize) -> Lexeme
    ensures { result ≡ lexeme_of (front (drop at text.now)) }
{
    if text.len() <= at {
        return Lexeme {
            what: Spelled::Empty,
            size: 0,
            value: 0,
        };
    }
    let what = begun_by(text[at]);
    match part_of(what) {
        Part::Numeral(k) => with_digits(what, digits_from(text, at + k)),
        Part::Text => Lexeme {
            what,
            size: quoted_from(text, at + 1),
            value: 0,
        },
        Part::Word => Lexeme {
            what,
            size: 0,
            value: 0,
        },
    }
}
