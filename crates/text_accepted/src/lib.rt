// Which sides of rules and which fields reading can return. Every other value counts as one with no fields.
#![tactic(auto)]

ghost use Rattle.std.specs.Prelude.{◌≡◌};
ghost use Rattle.std.specs.List.{list_all};
ghost use Rattle.text_values.specs.Values.{view_term, view_field, view_side};
ghost use Rattle.text_accepted.specs.linearity.Lists.{add_term, add_field, linear};
ghost use Rattle.text_values.specs.canonical.Terms.{term_blank};
ghost use Rattle.text_accepted.specs.Accepted.{may_stand, terms_ok, terms_blank, fields_ok, accepted_right, accepted_left, accepted_field};

pub mod linearity; // which list variables were met
pub mod rules; // which rules reading can return
pub mod slips; // which slips reading can return
pub mod variables; // which variables a side has

use crate::linearity::Lists;
use math_types::Kind;
use text_values::{Field, Fields, Form, RuleSide, Term, Terms, canonical};

// ---- the places of an array: the used ones, and the others behind them

fn are_terms(ts: &[Term], variables: bool) -> bool
    ensures { result ≡ list_all (may_stand variables) ts.now }
{
    ts.iter().all(|t| canonical::is_term(t, variables))
}

fn are_blank(ts: &[Term]) -> bool
    ensures { result ≡ list_all term_blank ts.now }
{
    ts.iter().all(|t| canonical::is_blank(t))
}

// The terms are ones that reading can return, variables only where they may stand, and the unused places are blank.
fn has_terms<const PLACES: usize>(f: &Terms<PLACES>, variables: bool) -> bool
    ensures { result ≡ terms_ok variables f.now }
{
    match f.terms.split_at_checked(f.n) {
        Some((used, rest)) => are_terms(used, variables) && are_blank(rest),
        None => false,
    }
}

fn are_fields<const PLACES: usize>(fs: &[Terms<PLACES>], variables: bool) -> bool
    ensures { result ≡ list_all (terms_ok variables) fs.now }
{
    fs.iter().all(
        |f| -> bool
            ensures { result ≡ terms_ok variables f.now }
        { has_terms(f, variables) },
    )
}

fn are_blank_fields<const PLACES: usize>(fs: &[Terms<PLACES>], variables: bool) -> bool
    ensures { result ≡ list_all (terms_blank variables) fs.now }
{
    fs.iter().all(
        |f| -> bool
            ensures { result ≡ terms_blank variables f.now }
        { f.n == 0 && has_terms(f, variables) },
    )
}

// The fields of a side that may have variables, or of a slip.
pub(crate) fn has_fields<const PLACES: usize>(r: &Fields<PLACES>, variables: bool) -> bool
    ensures { result ≡ fields_ok variables r.now }
{
    match r.fields.split_at_checked(r.n) {
        Some((used, rest)) => are_fields(used, variables) && are_blank_fields(rest, variables),
        None => false,
    }
}

// ---- a rule's sides

// Whether reading can return this right side, or none.
pub(crate) fn is_right(r: &RuleSide) -> bool
    ensures { result ≡ accepted_right r.now }
{
    has_fields(r, true)
}

fn add_term(l: Lists, t: &Term) -> Lists
    ensures { result ≡ add_term l (view_term t.now) }
{
    match t.form {
        Form::Var(Kind::List, v) => l.add(v as usize),
        _ => l,
    }
}

fn add_field(l: Lists, f: &Field) -> Lists
    ensures { result ≡ add_field l (view_field f.now) }
{
    let mut now = l.next_field();
    for t in f.used() {
        now = add_term(now, t);
    }
    now
}

fn is_linear(r: &RuleSide) -> bool
    ensures { result ≡ linear (view_side r.now) }
{
    let mut l = Lists::none();
    for f in r.used() {
        l = add_field(l, f);
    }
    l.ok
}

// Whether reading can return this left side.
pub fn is_left(r: RuleSide) -> bool
    ensures { result ≡ accepted_left r }
{
    r.n != 0 && is_right(&r) && is_linear(&r)
}

// Whether this field stands on some accepted rule's left side.
pub fn is_field(f: Field) -> bool
    ensures { result ≡ accepted_field f }
{
    is_left(text_values::one_field(f))
}
