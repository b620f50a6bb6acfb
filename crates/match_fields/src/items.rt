// Matching one term of a rule with one item of a slip, under the values that its atom variables have so far.
ghost use Rattle.std.specs.Prelude.{◌≡◌, false, get_or, if◌then◌else◌};
ghost use Rattle.math_types.specs.Values.{kind_of, kind_from};
ghost use Rattle.match_fields.specs.bindings.Values.{slot};
ghost use Rattle.match_fields.specs.items.Tests.{same_term, item_kind, bound, met, tested};

use crate::bindings::Values;
use math_types::Kind;
use text_values::{Form, Term};

// Whether two constants are one. (A variable is none.)
fn same_term(a: Term, b: Term) -> bool
    ensures { result ≡ same_term a b }
{
    match (a.form, b.form) {
        (Form::Con(c), Form::Con(d)) => text_values::constants::same(c, a.text, d, b.text),
        _ => false,
    }
}

// The type of a constant.
fn item_kind(t: Term) -> Kind
    ensures { result ≡ kind_from (item_kind t.form) }
{
    match t.form {
        Form::Con(c) => text_values::constants::kind_of(c),
        Form::Var(k, _) => k,
    }
}

fn is_known(v: &Values, i: usize) -> bool
    ensures { result ≡ get_or v.now.known i false }
{
    v.known.get(i).copied().unwrap_or(false)
}

fn bind(v: &mut Values, i: usize, t: Term)
    ensures { v.new ≡ bound v.old i t }
{
    if i < base_limits::ATOM_PLACES {
        v.known[i] = true;
        v.terms[i] = t;
    }
}

// Whether an atom variable takes an item: its earlier value, or else an item of its type, which is then its value. A no leaves v as it was.
fn takes(k: Kind, n: u8, item: Term, v: &mut Values) -> bool
    ensures answer { met (get_or v.old.known (slot (kind_of k) n) false) (kind_of k) (slot (kind_of k) n) item v.old
        ≡ (if result then Some v.new else None) }
    ensures kept { result ≡ false → v.new ≡ v.old }
{
    let i = crate::bindings::slot(k, n);
    if is_known(v, i) {
        return same_term(crate::bindings::value_of(*v, k, n), item);
    }
    if !math_types::below(item_kind(item), k) {
        return false;
    }
    bind(v, i, item);
    true
}

// Whether an item of the slip passes a term of the rule; v is then the values behind it, and stays what it was where the item fails.
pub(crate) fn passes(t: Term, item: Term, v: &mut Values) -> bool
    ensures answer { tested t item v.old ≡ (if result then Some v.new else None) }
    ensures kept { result ≡ false → v.new ≡ v.old }
{
    match t.form {
        Form::Con(_) => same_term(t, item),
        Form::Var(k, n) => math_types::is_list(k) || takes(k, n, item, v),
    }
}
