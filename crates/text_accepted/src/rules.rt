// Which rules reading can return. Every other value counts as one with no fields.
ghost use Rattle.std.specs.Prelude.{◌≡◌};
ghost use Rattle.text_values.specs.Values.{view_term, view_field, view_side};
ghost use Rattle.text_accepted.specs.rules.Rules.{known_term, known_field, known, accepted_rule, left_value};

use crate::variables::has_variable;
use text_values::{Field, Form, Rule, RuleSide, Term};

// ---- x has every variable

fn knows_term(x: &RuleSide, t: &Term) -> bool
    ensures { result ≡ known_term (view_side x.now) (view_term t.now) }
{
    match t.form {
        Form::Con(_) => true,
        Form::Var(k, n) => has_variable(*x, k, n),
    }
}

fn knows_field(x: &RuleSide, f: &Field) -> bool
    ensures { result ≡ known_field (view_side x.now) (view_field f.now) }
{
    f.used().iter().all(|t| knows_term(x, t))
}

fn knows(x: &RuleSide, y: &RuleSide) -> bool
    ensures { result ≡ known (view_side x.now) (view_side y.now) }
{
    y.used().iter().all(|f| knows_field(x, f))
}

// Whether reading can return this rule.
pub fn is_rule(r: Rule) -> bool
    ensures { result ≡ accepted_rule r }
{
    crate::is_left(r.left) && crate::is_right(&r.right) && knows(&r.left, &r.right)
}

// The left side of what the value counts as: the blank one, where reading cannot return the rule.
pub fn left_of(r: Rule) -> RuleSide
    ensures { result ≡ left_value r }
{
    if is_rule(r) {
        r.left
    } else {
        text_values::no_fields()
    }
}
