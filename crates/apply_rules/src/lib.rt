// Carrying out a rule on a slip: the right side with the filling put in.
#![tactic(auto)]

ghost use Rattle.std.specs.Prelude.{◌≡◌};
ghost use Rattle.apply_rules.specs.Answers.{carried_of};

mod filling; // a filling put into a side

use text_values::{Rule, Slip};

// Yes with the result; no; or a field of the result would have more terms than a slip's may have, refusal 11.
#[derive(Clone, Copy)]
pub enum Carry {
    Yes,
    No,
    TooLong,
}

// Document 02 gives a slip back whatever the answer is, so it stands beside it.
#[derive(Clone, Copy)]
pub struct Carried {
    pub answer: Carry,
    pub slip: Slip,
}

// The result of the rule on the slip. Without one the slip is the one given, whatever value it is.
pub fn carry_out(rule: Rule, slip: Slip) -> Carried
    ensures { result ≡ carried_of rule slip }
{
    if !text_accepted::rules::is_rule(rule) || rule.right.n == 0 {
        return Carried {
            answer: Carry::No,
            slip,
        };
    }
    let m = match_rules::match_side(rule.left, slip);
    if !m.yes {
        return Carried {
            answer: Carry::No,
            slip,
        };
    }
    let Some(result) = crate::filling::fill_side(rule.right, &m.filling, &slip) else {
        return Carried {
            answer: Carry::TooLong,
            slip,
        };
    };
    Carried {
        answer: Carry::Yes,
        slip: result,
    }
}
