// What is said of a text: accepted, or refused for one of the documents' reasons at a place.
ghost use Rattle.std.specs.Prelude.{◌≡◌};
ghost use Rattle.text_refusals.specs.verdicts.Verdicts.{number_of, first_of};

// Why a text is refused: document 01's refusals 1 to 7 and document 02's 10, in their order.
#[derive(Clone, Copy, PartialEq, Eq, PartialOrd, Ord)]
pub enum Reason {
    Long = 1,
    Grammar = 2,
    Fields = 3,
    Terms = 4,
    Limits = 5,
    Linear = 6,
    Variable = 7,
    Unknown = 10,
}

// Why a text is refused, and at which place.
#[derive(Clone, Copy)]
pub struct Refusal {
    pub reason: Reason,
    pub place: usize,
}

// Accepted, or refused.
pub type Verdict = Result<(), Refusal>;

// The documents' number of a refusal.
pub fn number(r: Reason) -> u8
    ensures { result ≡ number_of r }
{
    r as u8
}

// The refusal that is tried first; the former's where both are for the same reason.
pub fn first(a: Verdict, b: Verdict) -> Verdict
    ensures { result ≡ first_of a b }
{
    let Err(x) = a else {
        return b;
    };
    let Err(y) = b else {
        return a;
    };
    if y.reason < x.reason { b } else { a }
}
