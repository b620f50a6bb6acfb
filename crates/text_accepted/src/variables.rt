// Which variables a side of a rule has.
ghost use Rattle.std.specs.Prelude.{◌≡◌};
ghost use Rattle.math_types.specs.Values.{kind_of};
ghost use Rattle.text_values.specs.Values.{view_term, view_field, view_side};
ghost use Rattle.overlap_spec.specs.Variables.{is_variable, in_field, occurs};

use math_types::Kind;
use text_values::{Field, Form, RuleSide, Term};

fn is_variable(t: &Term, k: Kind, n: u8) -> bool
    ensures { result ≡ is_variable (kind_of k) n (view_term t.now) }
{
    match t.form {
        Form::Con(_) => false,
        Form::Var(j, m) => math_types::same_kind(k, j) && n == m,
    }
}

fn in_field(f: &Field, k: Kind, n: u8) -> bool
    ensures { result ≡ in_field (kind_of k) n (view_field f.now) }
{
    f.used().iter().any(|t| is_variable(t, k, n))
}

// Whether the variable of kind k and number n stands in some field of r.
pub fn has_variable(r: RuleSide, k: Kind, n: u8) -> bool
    ensures { result ≡ occurs (kind_of k) n (view_side r) }
{
    r.used().iter().any(|f| in_field(f, k, n))
}
