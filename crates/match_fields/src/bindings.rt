// What matching binds a rule's variables to: the values of atom variables in places of their own, and the runs of list variables.
ghost use Rattle.std.specs.Prelude.{◌≡◌};
ghost use Rattle.math_types.specs.Values.{kind_of};
ghost use Rattle.match_fields.specs.bindings.Values.{slot, atom_of, run_of};

use math_types::Kind;
use text_values::Term;

// The values of the atom variables: as many places for each type below list as there are numbers, blank where a variable has no value.
// Stays two arrays: document 01's blank filling has every number zero, so a place without a value has the blank term, which None has not
// (`blank_atoms` of demands/specs/Matching says both).
#[derive(Clone, Copy)]
pub struct Values {
    pub known: [bool; base_limits::ATOM_PLACES],
    pub terms: [Term; base_limits::ATOM_PLACES],
}

// A list variable's value: a run of the terms of one of the slip's fields.
#[derive(Clone, Copy)]
pub struct Run {
    pub field: usize,
    pub start: usize,
    pub count: usize,
}

#[derive(Clone, Copy)]
pub struct Filling {
    pub values: Values,
    pub runs: [Run; base_limits::NUMBERS_OF_SIDE],
}

// The place of an atom variable's value.
pub fn slot(k: Kind, n: u8) -> usize
    ensures { result ≡ slot (kind_of k) n }
{
    base_limits::NUMBERS_OF_SIDE * math_types::rank(k) + n as usize
}

// An atom variable's value, blank where it has none.
pub fn value_of(v: Values, k: Kind, n: u8) -> Term
    ensures { result ≡ atom_of v (kind_of k) n }
{
    let i = slot(k, n);
    match v.terms.get(i) {
        Some(t) => *t,
        None => text_values::blank_term(),
    }
}

// A list variable's run, blank where it has none.
pub fn run_of(x: Filling, n: u8) -> Run
    ensures { result ≡ run_of x n }
{
    match x.runs.get(usize::from(n)) {
        Some(r) => *r,
        None => Run {
            field: 0,
            start: 0,
            count: 0,
        },
    }
}
