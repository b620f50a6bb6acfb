// Which terms reading can return: the one value of each term. Unused places of an array hold the blank.
ghost use Rattle.std.specs.Prelude.{◌≡◌, cond};
ghost use Rattle.text_values.specs.canonical.Terms.{term_ok, term_blank, item_ok};

use crate::{Form, Term, constants};

// A term that reading can return: of a rule, or, where no variable may stand, of a slip.
pub fn is_term(t: &Term, variables: bool) -> bool
    ensures { result ≡ cond variables (term_ok t.now) (item_ok t.now) }
{
    match t.form {
        Form::Con(c) => constants::is_within(c, &t.text),
        Form::Var(_, n) => variables
            && n <= base_limits::LARGEST_NUMBER
            && constants::is_text(&t.text, 0),
    }
}

pub fn is_blank(t: &Term) -> bool
    ensures { result ≡ term_blank t.now }
{
    match t.form {
        Form::Con(c) => constants::is_blank(c, &t.text),
        Form::Var(_, _) => false,
    }
}
