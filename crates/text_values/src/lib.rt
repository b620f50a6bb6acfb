// Terms, fields, rules and slips as values. A value's unused places are blank (every number zero), so that there is one value for one rule.
#![tactic(auto)]

ghost use Rattle.std.specs.Prelude.{◌≡◌, take};
ghost use Rattle.text_values.specs.Values.{blank_term, no_terms, no_fields, blank_rule, one_field};

pub mod canonical; // which terms reading can return, and the blank of unused places
pub mod constants; // what a constant is

use crate::constants::Constant;
use base_limits::{MOST_FIELDS, MOST_ITEMS, MOST_TERMS};
use math_types::Kind;

// What a term is: a constant, or a variable's type and number.
#[derive(Clone, Copy)]
pub enum Form {
    Con(Constant),
    Var(Kind, u8),
}

#[derive(Clone, Copy)]
pub struct Term {
    pub form: Form,
    pub text: [u8; base_limits::LONGEST_STRING],
}

// Up to PLACES terms: those of a field of a rule, or of a slip. A public value may count more, and functions answer for it too.
#[derive(Clone, Copy)]
pub struct Terms<const PLACES: usize> {
    pub n: usize,
    pub terms: [Term; PLACES],
}

impl<const PLACES: usize> Terms<PLACES> {
    // Those that are there, without the unused places.
    pub fn used(&self) -> &[Term]
        ensures { result.now ≡ take self.now.n self.now.terms }
    {
        self.terms.get(..self.n).unwrap_or(&self.terms)
    }
}

// The fields of one side of a rule, or of a slip.
#[derive(Clone, Copy)]
pub struct Fields<const PLACES: usize> {
    pub n: usize,
    pub fields: [Terms<PLACES>; MOST_FIELDS],
}

impl<const PLACES: usize> Fields<PLACES> {
    pub fn used(&self) -> &[Terms<PLACES>]
        ensures { result.now ≡ take self.now.n self.now.fields }
    {
        self.fields.get(..self.n).unwrap_or(&self.fields)
    }
}

pub type Field = Terms<MOST_TERMS>;

pub type RuleSide = Fields<MOST_TERMS>;

pub type SlipField = Terms<MOST_ITEMS>;

pub type Slip = Fields<MOST_ITEMS>;

// A rule. A right side with no fields is none: a right side has one field at least.
#[derive(Clone, Copy)]
pub struct Rule {
    pub left: RuleSide,
    pub right: RuleSide,
}

pub fn blank_term() -> Term
    ensures { result ≡ blank_term }
{
    Term {
        form: Form::Con(constants::blank()),
        text: [0; base_limits::LONGEST_STRING],
    }
}

// The field with no terms.
pub fn no_terms<const PLACES: usize>() -> Terms<PLACES>
    ensures { result ≡ no_terms PLACES }
{
    let t = blank_term();
    Terms {
        n: 0,
        terms: [t; PLACES],
    }
}

// The side, or the slip, with no fields.
pub fn no_fields<const PLACES: usize>() -> Fields<PLACES>
    ensures { result ≡ no_fields PLACES }
{
    let f = no_terms();
    Fields {
        n: 0,
        fields: [f; MOST_FIELDS],
    }
}

// The rule with no fields.
pub fn blank_rule() -> Rule
    ensures { result ≡ blank_rule }
{
    let s = no_fields();
    Rule { left: s, right: s }
}

// The side with this one field.
pub fn one_field(f: Field) -> RuleSide
    ensures { result ≡ one_field f }
{
    let b = no_terms();
    RuleSide {
        n: 1,
        fields: [f, b, b, b],
    }
}
