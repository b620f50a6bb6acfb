// A filling put into a side of a rule: each variable replaced by its value, list variables by terms of the slip.
ghost use Rattle.std.specs.Prelude.{◌≡◌, get_or, option_map};
ghost use Rattle.text_values.specs.Values.{blank_slip_field};
ghost use Rattle.apply_rules.specs.filling.Filled.{some_items, run_items, filled_term, filled_field, filled_side};
ghost use Rattle.apply_rules.specs.filling.Pushes.{pushed, pushed_all, collected};

use match_fields::bindings::{Filling, Run};
use text_values::{Field, Form, RuleSide, Slip, SlipField, Term};

// Puts t behind the terms of w, if there is a place for it.
fn push(w: &mut SlipField, t: Term) -> Option<()>
    ensures { pushed w.old t ≡ option_map (λ u. w.new) result }
{
    let n = w.n;
    if base_limits::MOST_ITEMS <= n {
        return None;
    }
    w.n = n + 1;
    w.terms[n] = t;
    Some(())
}

// So many items of f from one on, as far as there are so many.
fn push_items(w: &mut SlipField, f: SlipField, start: usize, count: usize) -> Option<()>
    ensures { pushed_all w.old (some_items f start count) ≡ option_map (λ u. w.new) result }
{
    let items = &f.terms[..f.n.min(base_limits::MOST_ITEMS)];
    let behind = &items[start.min(items.len())..];
    for t in &behind[..count.min(behind.len())] {
        push(w, *t)?;
    }
    Some(())
}

fn field_at(s: &Slip, j: usize) -> SlipField
    ensures { result ≡ get_or s.now.fields j blank_slip_field }
{
    match s.fields.get(j) {
        Some(f) => *f,
        None => text_values::no_terms(),
    }
}

fn push_run(w: &mut SlipField, s: &Slip, r: Run) -> Option<()>
    ensures { pushed_all w.old (run_items s.now r) ≡ option_map (λ u. w.new) result }
{
    push_items(w, field_at(s, r.field), r.start, r.count)
}

// What the term t becomes, behind the terms of w.
fn push_term(w: &mut SlipField, t: Term, x: &Filling, s: &Slip) -> Option<()>
    ensures { pushed_all w.old (filled_term x.now s.now t) ≡ option_map (λ u. w.new) result }
{
    match t.form {
        Form::Con(_) => push(w, t),
        Form::Var(k, n) if math_types::is_list(k) => push_run(
            w,
            s,
            match_fields::bindings::run_of(*x, n),
        ),
        Form::Var(k, n) => push(w, match_fields::bindings::value_of(x.values, k, n)),
    }
}

// The field with the filling put in, if it then has no more terms than a slip's may have.
fn fill_field(f: Field, x: &Filling, s: &Slip) -> Option<SlipField>
    ensures { result ≡ collected (filled_field x.now s.now f) }
{
    let mut y = text_values::no_terms();
    for t in &f.terms[..f.n.min(base_limits::MOST_TERMS)] {
        push_term(&mut y, *t, x, s)?;
    }
    Some(y)
}

// The side with the filling put in, if no field then has more terms than a slip's may have.
pub(crate) fn fill_side(side: RuleSide, x: &Filling, s: &Slip) -> Option<Slip>
    ensures { result ≡ filled_side side x.now s.now }
{
    let fields = &side.fields[..side.n.min(base_limits::MOST_FIELDS)];
    let mut out = text_values::no_fields();
    out.n = fields.len();
    for (i, f) in fields.iter().enumerate() {
        out.fields[i] = fill_field(*f, x, s)?;
    }
    Some(out)
}
