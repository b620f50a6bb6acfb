// The type order: which kind of term is below which, and the meet of two.
// Every answer is read from one table, whose laws and whose agreement with document 01 stand in specs/Types.antt.
#![tactic(auto)]

ghost use Rattle.std.specs.Prelude.{◌≡◌};
ghost use Rattle.math_types.specs.Types.{rank, kind_at, le, same, is_list, entry};
ghost use Rattle.math_types.specs.Values.{kind_of, meet_rank};

use base_limits::KINDS;

// Each with its rank. The order of the types is none of these numbers: integer and string are incomparable.
#[derive(Clone, Copy, PartialEq, Eq)]
pub enum Kind {
    Integer = 0,
    String = 1,
    Atom = 2,
    List = 3,
}

const CELLS: usize = KINDS * KINDS;

// Document 01: "We keep the type order as a table of four by four". A row for each lower kind, a column for each upper one.
const BELOW: [bool; CELLS] = [
    true, // integer, integer
    false, // integer, string
    true, // integer, atom
    true, // integer, list
    false, // string, integer
    true, // string, string
    true, // string, atom
    true, // string, list
    false, // atom, integer
    false, // atom, string
    true, // atom, atom
    true, // atom, list
    false, // list, integer
    false, // list, string
    false, // list, atom
    true, // list, list
];

// A kind's row and column in the table.
pub fn rank(k: Kind) -> usize
    ensures { result ≡ rank (kind_of k) }
{
    k as usize
}

// The kind of a rank; what is no rank counts for list's, where a TryFrom would fail.
pub fn kind_at(i: usize) -> Kind
    ensures { kind_of result ≡ kind_at i }
{
    match i {
        0 => Kind::Integer,
        1 => Kind::String,
        2 => Kind::Atom,
        _ => Kind::List,
    }
}

// Whether j is at or below k.
pub fn below(j: Kind, k: Kind) -> bool
    ensures { result ≡ le (kind_of j) (kind_of k) }
{
    let i = KINDS * rank(j) + rank(k);
    BELOW[i]
}

// The same of two ranks; what is no rank is below nothing.
pub fn below_rank(j: u8, k: u8) -> bool
    ensures { result ≡ entry j k }
{
    let i = KINDS * j as usize + k as usize;
    if CELLS <= i {
        return false;
    }
    BELOW[i]
}

// The greatest rank below both (`meet_rank_is`), read from the table: kinds that have one are comparable, so it is the lower of the two.
pub fn meet_rank(j: u8, k: u8) -> Option<u8>
    ensures { result ≡ meet_rank j k }
{
    if below_rank(j, k) {
        return Some(j);
    }
    if below_rank(k, j) {
        return Some(k);
    }
    None
}

// Whether j and k are one kind (`same_is`, `same_kind_is`).
pub fn same_kind(j: Kind, k: Kind) -> bool
    ensures { result ≡ same (kind_of j) (kind_of k) }
{
    j == k
}

// Whether k is the kind of list variables.
pub fn is_list(k: Kind) -> bool
    ensures { result ≡ is_list (kind_of k) }
{
    k == Kind::List
}
