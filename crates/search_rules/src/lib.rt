// The search's rules on codes: what they ask of a side of an equation, which equations have no solution, and what each rule makes of one.
// A lent row has the tables of the pair (`pair_row`).
#![tactic(auto)]

ghost use Rattle.std.specs.Prelude.{◌≡◌, false, get_or};
ghost use Rattle.pair_row.specs.Row.{table_in};
ghost use Rattle.search_items.specs.Items.{items_of};
ghost use Rattle.search_rules.specs.Heads.{no_head, whole_by, head_of};
ghost use Rattle.search_rules.specs.Fails.{occur, clash1, clash2, clash3, clash4, fails_value};
ghost use Rattle.search_rules.specs.Tests.{replaces, strictly, list_end, fresh_code};
ghost use Rattle.search_rules.specs.Moves.{solved_move, solved_by, kept, bound, decomp1, decomp1', decomp2, decomp2'};
ghost use Rattle.search_rules.specs.Moves.{decomp3, decomp4, subst2, decomp4?, subst1?, fresh_rules, applies_by, move_value};

use search_items::Items;

// ---- heads

// What the rules ask of a side.
//   some      it has a first term
//   longer    it has a second
//   variable  the first is a variable
//   list      the first is a list variable
//   kind      the rank of the first one's type; list's where there is none
//   whole     the rank of the side's type: of one term that term's, else list
//   first     the first one's code; 0 where there is none
// `some` stays a flag: a side that has no first term has a type too.
#[derive(Clone, Copy)]
pub struct Head {
    pub some: bool,
    pub longer: bool,
    pub variable: bool,
    pub list: bool,
    pub kind: u8,
    pub whole: u8,
    pub first: u8,
}

fn no_head() -> Head
    ensures { result ≡ no_head }
{
    Head {
        some: false,
        longer: false,
        variable: false,
        list: false,
        kind: pair_row::LIST_RANK,
        whole: pair_row::LIST_RANK,
        first: 0,
    }
}

fn whole_of(longer: bool, k: u8) -> u8
    ensures { result ≡ whole_by longer k }
{
    if longer { pair_row::LIST_RANK } else { k }
}

// The head of a side.
pub fn head_of(w: &Items, row: &[u8]) -> Head
    ensures { result ≡ head_of (table_in row.now) (items_of w.now) }
{
    match w.used() {
        [] => no_head(),
        [c, rest @ ..] => {
            let c = *c;
            let longer = !rest.is_empty();
            let k = pair_row::kind_at(row, c);
            Head {
                some: true,
                longer,
                variable: pair_row::is_variable(row, c),
                list: pair_row::LISTS <= c,
                kind: k,
                whole: whole_of(longer, k),
                first: c,
            }
        }
    }
}

// ---- failure rules, of the sides l and r with the heads a and b

fn occur(l: &Items, r: &Items, a: Head) -> bool
    ensures { result ≡ occur a (items_of l.now) (items_of r.now) }
{
    a.list && !a.longer && r.occurs(a.first) && !r.same(l)
}

fn clash1(a: Head, b: Head) -> bool
    ensures { result ≡ clash1 a b }
{
    a.some && !a.variable && b.some && !b.variable && a.first != b.first
}

fn clash2(a: Head, b: Head) -> bool
    ensures { result ≡ clash2 a b }
{
    a.some && !a.list && !b.some
}

fn clash3(a: Head, b: Head) -> bool
    ensures { result ≡ clash3 a b }
{
    !a.some && b.some && !b.list
}

fn clash4(a: Head, b: Head) -> bool
    ensures { result ≡ clash4 a b }
{
    let j = a.kind;
    let k = b.whole;
    a.variable && !a.longer && !math_types::below_rank(j, k) && !math_types::below_rank(k, j)
}

// Whether a failure rule applies to left = right.
pub fn fails(left: &Items, right: &Items, row: &[u8]) -> bool
    ensures { result ≡ fails_value (table_in row.now) left.now right.now }
{
    let a = head_of(left, row);
    let b = head_of(right, row);
    occur(left, right, a) || clash1(a, b) || clash2(a, b) || clash3(a, b) || clash4(a, b)
}

// ---- which rules apply to l = r, whose sides have the heads a and b

// Whether b's first term is an atom that can replace a's, a variable x of type atom or below.
// Document 01: "type(a) at or below type(x)", "need x and a to differ".
fn replaces(a: Head, b: Head) -> bool
    ensures { result ≡ replaces a b }
{
    let x = a.first;
    let y = b.first;
    let j = a.kind;
    let k = b.kind;
    b.some && !b.list && y != x && math_types::below_rank(k, j)
}

// Whether j is below k, and not k itself.
fn strictly(j: u8, k: u8) -> bool
    ensures { result ≡ strictly j k }
{
    math_types::below_rank(j, k) && !math_types::below_rank(k, j)
}

// Whether a side is a term and a list variable.
fn list_end(w: &Items) -> bool
    ensures { result ≡ list_end (items_of w.now) }
{
    match w.used() {
        [_, c] => pair_row::LISTS <= *c,
        _ => false,
    }
}

fn is_decomp4(r: &Items, a: Head, b: Head) -> bool
    ensures { result ≡ decomp4? a b (list_end (items_of r.now)) }
{
    a.variable && !a.list && !a.longer && list_end(r) && replaces(a, b)
}

fn is_subst1(r: &Items, a: Head, b: Head) -> bool
    ensures { result ≡ subst1? a b (items_of r.now) }
{
    a.variable && !a.longer && math_types::below_rank(b.whole, a.kind) && !r.occurs(a.first)
}

// How many rules there are: "Remove, Decomp1, .., Orient1 to Orient4". A rule stays a number: the search goes through them in order, and
// notes by RULES that none is left.
pub const RULES: usize = 14;

// Whether the rule of this number applies to l = r, the rules counted from 0 in document 01's order. No other number has a rule.
pub fn applies(rule: usize, l: &Items, r: &Items, a: Head, b: Head) -> bool
    ensures { result ≡ applies_by a b (items_of l.now) (items_of r.now) rule }
{
    let x = a.first;
    let y = b.first;
    let j = a.kind;
    let k = b.kind;
    match rule {
        0 => l.same(r),
        1 => a.list & a.longer & b.some,
        2 => a.variable & !a.list & a.longer & replaces(a, b),
        3 => a.list & a.longer & b.list,
        4 => a.list & a.longer & b.list,
        5 => a.some & b.some & (x == y),
        6 => is_decomp4(r, a, b),
        7 => is_subst1(r, a, b),
        8 => a.list & a.longer,
        9 => a.list & a.longer & b.some & !b.list,
        10 => a.some & !a.variable & b.variable,
        11 => a.variable & a.longer & b.variable & !b.longer & (j == k),
        12 => a.variable & b.variable & strictly(j, k),
        13 => !a.some & b.list,
        _ => false,
    }
}

// Which rules bring in the fresh list variable.
const BRINGS: [bool; RULES] = [
    false, // Remove
    false, // Decomp1
    false, // Decomp1'
    true, // Decomp2
    true, // Decomp2'
    false, // Decomp3
    false, // Decomp4
    false, // Subst1
    false, // Subst2
    true, // Subst3
    false, // Orient1
    false, // Orient2
    false, // Orient3
    false, // Orient4
];

// Whether the rule of this number brings in the fresh list variable.
pub fn brings(rule: usize) -> bool
    ensures { result ≡ get_or fresh_rules rule false }
{
    BRINGS.get(rule).copied().unwrap_or(false)
}

// ---- moves

// What a rule makes of an equation.
//   open     an equation is left, left = right; else it is solved, and both are blank
//   binds    the variable is bound to the value; else both are blank
//   fresh    the fresh list variable was brought in
// Stays flags beside the parts: each part goes as it is into a problem's record, which has a flag and blank sides too.
#[derive(Clone, Copy)]
pub struct Move {
    pub open: bool,
    pub binds: bool,
    pub fresh: bool,
    pub variable: u8,
    pub value: Items,
    pub left: Items,
    pub right: Items,
}

// The code of the fresh list variable of a number. (A number whose code would be no byte, which no problem has, counts by its remainder.)
fn fresh_code(f: u8) -> u8
    ensures { result ≡ fresh_code f }
{
    pair_row::LISTS + f % pair_row::LISTS
}

// ---- what a rule leaves

// Nothing is left, and nothing is bound.
fn solved() -> Move
    ensures { result ≡ solved_move }
{
    let w = Items::blank();
    Move {
        open: false,
        binds: false,
        fresh: false,
        variable: 0,
        value: w,
        left: w,
        right: w,
    }
}

// Nothing is left, and x is bound to s.
fn solved_by(x: u8, s: &Items) -> Move
    ensures { result ≡ solved_by x s.now }
{
    Move {
        binds: true,
        variable: x,
        value: *s,
        ..solved()
    }
}

// l = r is left, and nothing is bound.
fn kept(l: Items, r: Items) -> Move
    ensures { result ≡ kept l r }
{
    Move {
        open: true,
        left: l,
        right: r,
        ..solved()
    }
}

// l = r is left, and x is bound to s, with the fresh list variable or without.
fn bound(fresh: bool, x: u8, s: Items, l: Items, r: Items) -> Move
    ensures { result ≡ bound fresh x s l r }
{
    Move {
        open: true,
        binds: true,
        fresh,
        variable: x,
        value: s,
        left: l,
        right: r,
    }
}

// ---- what the rules make of l = r, whose sides begin with x and y; n is the fresh list variable

fn decomp1(l: &Items, r: &Items, x: u8, y: u8) -> Move
    ensures { result ≡ decomp1 x y (items_of l.now) (items_of r.now) }
{
    bound(
        false,
        x,
        Items::of(&[y]),
        Items::of(l.rest()),
        Items::of(r.rest()),
    )
}

fn decomp1_prime(l: &Items, r: &Items, x: u8, y: u8) -> Move
    ensures { result ≡ decomp1' x y (items_of l.now) (items_of r.now) }
{
    let v = [y];
    bound(
        false,
        x,
        Items::of(&v),
        Items::put_in(x, &v, l.rest()),
        Items::put_in(x, &v, r.rest()),
    )
}

// Subst3 makes the same.
fn decomp2(l: &Items, r: &Items, x: u8, y: u8, n: u8) -> Move
    ensures { result ≡ decomp2 x y (items_of l.now) (items_of r.now) n }
{
    bound(
        true,
        x,
        Items::of(&[y, n]),
        Items::behind(n, l.rest()),
        Items::of(r.rest()),
    )
}

fn decomp2_prime(l: &Items, r: &Items, x: u8, y: u8, n: u8) -> Move
    ensures { result ≡ decomp2' x y (items_of l.now) (items_of r.now) n }
{
    bound(
        true,
        y,
        Items::of(&[x, n]),
        Items::of(l.rest()),
        Items::behind(n, r.rest()),
    )
}

fn decomp3(l: &Items, r: &Items) -> Move
    ensures { result ≡ decomp3 (items_of l.now) (items_of r.now) }
{
    kept(Items::of(l.rest()), Items::of(r.rest()))
}

fn decomp4(r: &Items, x: u8, y: u8) -> Move
    ensures { result ≡ decomp4 x y (items_of r.now) }
{
    bound(
        false,
        x,
        Items::of(&[y]),
        Items::blank(),
        Items::of(r.rest()),
    )
}

fn subst2(l: &Items, r: &Items, x: u8) -> Move
    ensures { result ≡ subst2 x r.now (items_of l.now) }
{
    bound(false, x, Items::blank(), Items::of(l.rest()), *r)
}

// What the rule of this number makes of left = right, where it applies.
pub fn move_of(rule: usize, left: &Items, right: &Items, fresh: u8, row: &[u8]) -> Option<Move>
    ensures { result ≡ move_value (table_in row.now) rule left.now right.now fresh }
{
    let a = head_of(left, row);
    let b = head_of(right, row);
    if !applies(rule, left, right, a, b) {
        return None;
    }
    let n = fresh_code(fresh);
    let x = a.first;
    let y = b.first;
    match rule {
        0 => Some(solved()),
        1 => Some(decomp1(left, right, x, y)),
        2 => Some(decomp1_prime(left, right, x, y)),
        3 => Some(decomp2(left, right, x, y, n)),
        4 => Some(decomp2_prime(left, right, x, y, n)),
        5 => Some(decomp3(left, right)),
        6 => Some(decomp4(right, x, y)),
        7 => Some(solved_by(x, right)),
        8 => Some(subst2(left, right, x)),
        9 => Some(decomp2(left, right, x, y, n)),
        10 => Some(kept(*right, *left)),
        11 => Some(kept(*right, *left)),
        12 => Some(kept(*right, *left)),
        13 => Some(kept(*right, *left)),
        _ => None,
    }
}
