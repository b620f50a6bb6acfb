// Refusal 10: a variable that a left side lacks, as it is written in a right side.
ghost use Rattle.std.specs.Prelude.{◌≡◌};
ghost use Rattle.text_values.specs.Values.{view_side};
ghost use Rattle.text_refusals.specs.unknown.Unknown.{unknown_lexeme};

use crate::LARGEST_NUMBER;
use text_scan::{Lexeme, Spelled};
use text_values::RuleSide;

// Whether a written term is a variable that the side lacks. No side has one with a number over its limit.
pub fn is_unknown(left: RuleSide, p: Lexeme) -> bool
    ensures { result ≡ unknown_lexeme (view_side left) p }
{
    match p.what {
        Spelled::Var(k) => LARGEST_NUMBER < p.value
            || !text_accepted::variables::has_variable(left, k, p.value as u8),
        Spelled::Con(_) | Spelled::Empty => false,
    }
}
