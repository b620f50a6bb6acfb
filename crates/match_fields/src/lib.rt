// Matching one field of a rule with one field of a slip: first the length, then the terms from the left.
#![tactic(auto)]

ghost use Rattle.std.specs.Prelude.{◌≡◌, ◌≤◌, get_or};
ghost use Rattle.base_limits.specs.Limits.{most_terms, most_items};
ghost use Rattle.text_values.specs.Values.{blank_term};
ghost use Rattle.match_fields.specs.Fields.{is_list_term, walk_progress, shape_of, fits_length, field_progress, terms_of};
ghost use Rattle.match_fields.specs.Fields.{items_of};

pub mod bindings; // what variables are bound to
pub mod items; // one term against one item

use crate::bindings::Values;
use text_values::{Field, Form, SlipField, Term};

// How far the tests got: the values behind the last of them, or those before the one that failed, and how many of the slip's items were
// compared.
#[derive(Clone, Copy)]
pub struct Progress {
    pub tested: Result<Values, Values>,
    pub compared: usize,
}

// How many of a field's terms are atoms, and how many list variables.
#[derive(Clone, Copy)]
struct Shape {
    atoms: usize,
    lists: usize,
}

// Whether a term is a list variable.
pub fn is_list_term(t: Term) -> bool
    ensures { result ≡ is_list_term t }
{
    match t.form {
        Form::Con(_) => false,
        Form::Var(k, _) => math_types::is_list(k),
    }
}

fn shape_of(f: Field) -> Shape
    ensures { result ≡ shape_of (terms_of f) }
{
    let terms = &f.terms[..f.n.min(base_limits::MOST_TERMS)];
    let lists = terms.iter().filter(|t| is_list_term(**t)).count();
    Shape {
        atoms: terms.len() - lists,
        lists,
    }
}

// The item at p, or the blank one behind the last.
fn item_at(w: SlipField, p: usize) -> Term
    ensures { result ≡ get_or (items_of w) p blank_term }
{
    match w.terms[..w.n.min(base_limits::MOST_ITEMS)].get(p) {
        Some(t) => *t,
        None => text_values::blank_term(),
    }
}

// The terms of a field from the left, up to the first that fails; a list variable takes gap items and compares none.
fn walk_field(f: Field, w: SlipField, gap: usize, v: Values) -> Progress
    requires { gap ≤ most_items }
    ensures { (result ≡ walk_progress gap (items_of w) (terms_of f) v) × (result.compared ≤ most_terms) }
{
    let mut now = v;
    let mut compared: usize = 0;
    let mut p: usize = 0;
    for t in &f.terms[..f.n.min(base_limits::MOST_TERMS)] {
        if is_list_term(*t) {
            p += gap;
        } else {
            let item = item_at(w, p);
            compared += 1;
            if !crate::items::passes(*t, item, &mut now) {
                return Progress {
                    tested: Err(now),
                    compared,
                };
            }
            p += 1;
        }
    }
    Progress {
        tested: Ok(now),
        compared,
    }
}

// Whether n items have room for a field of this shape.
fn fits_length(s: Shape, n: usize) -> bool
    ensures { result ≡ fits_length s n }
{
    if s.lists == 0 {
        return s.atoms == n;
    }
    s.atoms <= n
}

// A field: first its length, then its terms from the left.
pub fn match_field(f: Field, w: SlipField, v: Values) -> Progress
    ensures { (result ≡ field_progress (terms_of f) (items_of w) v) × (result.compared ≤ most_terms) }
{
    let s = shape_of(f);
    let n = w.n.min(base_limits::MOST_ITEMS);
    if !fits_length(s, n) {
        return Progress {
            tested: Err(v),
            compared: 0,
        };
    }
    walk_field(f, w, n - s.atoms, v)
}
