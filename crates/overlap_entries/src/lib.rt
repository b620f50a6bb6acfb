// Two fields laid over each other: the candidates, the joins of one, and the items that it gives an entry's field.
#![tactic(auto)]

ghost use Rattle.std.specs.Prelude.{◌≡◌};
ghost use Rattle.math_types.specs.Types.{entry};
ghost use Rattle.math_codes.specs.Spots.{cell_at, pick_cell, join_cells, join_from};
ghost use Rattle.pair_row.specs.Row.{table_in, spot_of};
ghost use Rattle.pair_state.specs.States.{joined_of};
ghost use Rattle.overlap_entries.specs.Entries.{only, span_of, place_in, code_at, item_at, item_count, no_choice, chosen_at, differ};

use pair_row::Shape;
use pair_state::State;

// The candidates of a field pair: how many items the first has, how many there are, each with an item more,
// and whether the last has a list variable among its items.
#[derive(Clone, Copy)]
pub struct Span {
    pub least: u16,
    pub count: u16,
    pub long: bool,
}

// How many atoms a field has by a candidate, and whether a list variable stands among them.
#[derive(Clone, Copy)]
pub struct Candidate {
    pub items: u16,
    pub long: bool,
}

// A candidate for each field.
#[derive(Clone, Copy)]
pub struct Choice {
    pub fields: [Candidate; base_limits::MOST_FIELDS],
}

// Nothing is chosen.
pub fn no_choice() -> Choice
    ensures { result ≡ no_choice }
{
    let none = Candidate {
        items: 0,
        long: false,
    };
    Choice {
        fields: [none; base_limits::MOST_FIELDS],
    }
}

// The choice with a candidate for field j. (There are four fields.)
pub fn choose_at(c: Choice, j: u8, x: Candidate) -> Choice
    ensures { result ≡ chosen_at c j x.items x.long }
{
    let k = j as usize;
    if base_limits::MOST_FIELDS <= k {
        return c;
    }
    let mut d = c;
    d.fields[k] = x;
    d
}

// ---- candidates

// The one candidate with n items, or none.
fn only(n: u16, fits: bool) -> Span
    ensures { result ≡ only n fits }
{
    Span {
        least: n,
        count: if fits { 1 } else { 0 },
        long: false,
    }
}

// The candidates of two fields: one length where a field has no list variable, else all from the shortest to the longest that atoms need,
// and then the long one.
pub fn span_of(s: Shape, t: Shape) -> Span
    ensures { result ≡ span_of (spot_of s) (spot_of t) }
{
    let h = s.head as u16;
    let k = t.head as u16;
    let m = h + s.tail as u16;
    let n = k + t.tail as u16;
    if !s.gapped {
        if !t.gapped {
            return only(h, k == h);
        }
        return only(h, n <= h);
    }
    if !t.gapped {
        return only(k, m <= k);
    }
    let wide = h.max(k) + (s.tail as u16).max(t.tail as u16);
    let least = m.max(n);
    Span {
        least,
        count: wide - least + 1,
        long: true,
    }
}

// ---- joins

// The place of a field's atom at position p of n, if one stands there.
fn cell_at(s: Shape, n: u16, p: u16) -> Option<usize>
    ensures { place_in result ≡ cell_at (spot_of s) n p }
{
    let base = s.base as usize;
    let head = s.head as usize;
    let end = p as usize + s.tail as usize;
    if (p as usize) < head {
        return Some(base + p as usize);
    }
    if !s.gapped {
        return None;
    }
    if end < n as usize {
        return None;
    }
    Some(base + head + 1 + (end - n as usize))
}

// Whether two atoms share a position and stand for different ones: else there is nothing to join.
fn differ(a: Option<usize>, b: Option<usize>, atoms: &[u8]) -> bool
    ensures { result ≡ differ (place_in a) (place_in b) atoms.now }
{
    match (a, b) {
        (Some(x), Some(y)) => pair_row::byte_at(atoms, x) != pair_row::byte_at(atoms, y),
        _ => false,
    }
}

// The join of two atoms that share a position; where one of them is missing there is none.
fn join_cells(a: Option<usize>, b: Option<usize>, st: State, row: &[u8]) -> Option<State>
    ensures { result ≡ joined_of (join_cells entry (table_in row.now) (place_in a) (place_in b) st.atoms) }
{
    match (a, b) {
        (Some(x), Some(y)) => st.join(x, y, row),
        _ => Some(st),
    }
}

// The state after the joins of two fields that have n atoms, or a clash. Atoms that share a position are joined.
pub fn join_fields(row: &[u8], s: Shape, t: Shape, n: u16, st: State) -> Option<State>
    ensures { result ≡ joined_of (join_from entry (table_in row.now) (cell_at (spot_of s) n) (cell_at (spot_of t) n) n 0 st.atoms) }
{
    let mut now = st;
    for p in 0..n {
        let a = cell_at(s, n, p);
        let b = cell_at(t, n, p);
        // Tested first, so that the state is copied only where something is joined.
        if differ(a, b, &now.atoms) {
            now = join_cells(a, b, now, row)?;
        }
    }
    Some(now)
}

// ---- items

// The left cell's place, else the right one's.
fn picked(a: Option<usize>, b: Option<usize>) -> usize
    ensures { result ≡ pick_cell (place_in a) (place_in b) }
{
    a.or(b).unwrap_or(0)
}

// The code at position p of n.
fn code_at(s: Shape, t: Shape, n: u16, p: u16, atoms: &[u8]) -> u8
    ensures { result ≡ code_at atoms.now (spot_of s) (spot_of t) n p }
{
    pair_row::byte_at(atoms, picked(cell_at(s, n, p), cell_at(t, n, p)))
}

// How many items a field with n atoms has.
pub fn item_count(n: u16, long: bool) -> usize
    ensures { result ≡ item_count n long }
{
    if long { n as usize + 1 } else { n as usize }
}

// Item i of an entry's field with n atoms; in the long one the list variable, the item `list`, stands behind the larger head.
pub fn item_at(s: Shape, t: Shape, n: u16, long: bool, list: u8, i: u16, atoms: &[u8]) -> u8
    ensures { result ≡ item_at atoms.now (spot_of s) (spot_of t) n long list i }
{
    if !long {
        return code_at(s, t, n, i, atoms);
    }
    let h = (s.head as u16).max(t.head as u16);
    if i < h {
        return code_at(s, t, n, i, atoms);
    }
    if i == h {
        return list;
    }
    code_at(s, t, n, i - 1, atoms)
}
