// Which refusal from 3 on a written term meets, and the first that is tried over the terms of a text so far.
#![tactic(auto)]

ghost use Rattle.std.specs.Prelude.{◌≡◌};
ghost use Rattle.text_refusals.specs.verdicts.Verdicts.{sort_of};
ghost use Rattle.text_refusals.specs.Refusals.{over_literal, over_lexeme, clash_by, variable_by, last_bad, last_reason, met, add_by};
ghost use Rattle.text_refusals.specs.Refusals.{lists_at};
ghost use Rattle.text_refusals.specs.Refusals.{surveyed};

pub mod unknown; // refusal 10
pub mod verdicts; // what is said of a text

use crate::verdicts::{Reason, Refusal, Verdict};
use text_accepted::linearity::Lists;
use text_scan::{Lexeme, Literal, Spelled};

// Where a term stands: its first byte, the number of its field and its number there, both from 1.
#[derive(Clone, Copy)]
pub struct At {
    pub place: usize,
    pub field: usize,
    pub index: usize,
}

// The first refusal from 3 on that a term has met, at the place of the first term that met it, and the list variables so far.
#[derive(Clone, Copy)]
pub struct Survey {
    pub verdict: Verdict,
    pub lists: Lists,
}

// What is read: a rule, of which one side at a time, or a slip.
#[derive(Clone, Copy)]
pub enum Sort {
    Rule,
    Slip,
}

impl Sort {
    // How many terms a field may have.
    fn width(self) -> usize
        ensures { result ≡ (sort_of self).width }
    {
        match self {
            Sort::Rule => base_limits::MOST_TERMS,
            Sort::Slip => base_limits::MOST_ITEMS,
        }
    }

    // Whether a term meets the refusal that is tried last: of a slip 7, of a rule 6.
    fn is_last(self, p: Lexeme, l: Lists) -> bool
        ensures { result ≡ last_bad self p l }
    {
        match self {
            Sort::Rule => is_clash(p, l),
            Sort::Slip => is_variable(p),
        }
    }

    fn last_reason(self) -> Reason
        ensures { result ≡ last_reason self }
    {
        match self {
            Sort::Rule => Reason::Linear,
            Sort::Slip => Reason::Variable,
        }
    }
}

// The largest number as a lexeme's value.
const LARGEST_NUMBER: u32 = base_limits::LARGEST_NUMBER as u32;

// A constant with a value, a digit count or a string length over its limit.
fn is_literal_over(l: Literal, n: usize, v: u32) -> bool
    ensures { result ≡ over_literal l n v }
{
    match l {
        Literal::Int(minus) => base_limits::MOST_DIGITS < n || text_grammar::limit(minus) < v,
        Literal::Str => base_limits::LONGEST_STRING < n,
    }
}

// Refusal 5: a value, digit count, variable number or string length over its limit.
fn is_over(p: Lexeme) -> bool
    ensures { result ≡ over_lexeme p }
{
    match p.what {
        Spelled::Con(l) => is_literal_over(l, p.size, p.value),
        Spelled::Var(_) => LARGEST_NUMBER < p.value,
        Spelled::Empty => false,
    }
}

// Refusal 6: a list variable that loses left-linearity.
fn is_clash(p: Lexeme, l: Lists) -> bool
    ensures { result ≡ clash_by p.what p.value l }
{
    match p.what {
        Spelled::Var(k) => math_types::is_list(k) && !l.add(p.value as usize).ok,
        Spelled::Con(_) | Spelled::Empty => false,
    }
}

// Refusal 7: a variable in a slip.
fn is_variable(p: Lexeme) -> bool
    ensures { result ≡ variable_by p.what }
{
    matches!(p.what, Spelled::Var(_))
}

// The first refusal from 3 on that a term meets, at its place.
fn met(sort: Sort, a: At, p: Lexeme, l: Lists) -> Verdict
    ensures { result ≡ met sort (sort_of sort).width a p l }
{
    let reason = if base_limits::MOST_FIELDS < a.field {
        Reason::Fields
    } else if sort.width() < a.index {
        Reason::Terms
    } else if is_over(p) {
        Reason::Limits
    } else if sort.is_last(p, l) {
        sort.last_reason()
    } else {
        return Ok(());
    };
    Err(Refusal {
        reason,
        place: a.place,
    })
}

fn add_lexeme(l: Lists, p: Lexeme) -> Lists
    ensures { result ≡ add_by p.what p.value l }
{
    match p.what {
        Spelled::Var(k) if math_types::is_list(k) => l.add(p.value as usize),
        _ => l,
    }
}

fn lists_at(a: At, l: Lists) -> Lists
    ensures { result ≡ lists_at a l }
{
    if a.index == 1 { l.next_field() } else { l }
}

// The survey with the term p, which stands at a.
pub fn note(s: Survey, sort: Sort, a: At, p: Lexeme) -> Survey
    ensures { result ≡ surveyed sort (sort_of sort).width s a p }
{
    let lists = lists_at(a, s.lists);
    Survey {
        verdict: crate::verdicts::first(s.verdict, met(sort, a, p, lists)),
        lists: add_lexeme(lists, p),
    }
}
