// The problems of the search as records on codes: what is left of the equation, the bindings so far, the list variables used so far; what
// a move makes of a record; a step of the search: whether a problem fails, the child that a rule gives it, the next rule that gives one;
// and the record where the search starts.
// A lent row has the tables of the pair (`pair_row`).
#![tactic(auto)]

ghost use Rattle.std.specs.Prelude.{◌≡◌, cond, ◌-◌};
ghost use mathlib.Core.List.{foldl};
ghost use Rattle.search_problems.specs.variables.Sets.{with_name, list_variables};
ghost use Rattle.pair_row.specs.Row.{table_in};
ghost use Rattle.search_items.specs.Items.{pushed};
ghost use Rattle.search_problems.specs.Values.{blank_problem};
ghost use Rattle.search_problems.specs.Applied.{bound_atoms, bound_to, left_by, applied_value};
ghost use Rattle.search_problems.specs.Steps.{fails_of, none_left, makes, child_of, gives_by, next_rule};
ghost use Rattle.search_problems.specs.Roots.{codes_at, list_number, side_items, own_items, with_own, root_value};

mod variables; // the set of list variables

use pair_row::Shape;
use pair_state::State;
use search_items::Items;
use search_rules::{Head, Move};

// A problem. `open`: an equation left = right is left to solve; else it is solved.
// `atoms`: what each atom of the two fields stands for, by place. `lists`: what the left field's list variable stands for, and the right
// field's; blank where the field has none. `used`: the list variables of the problem and its bindings, bound ones too.
// `open` stays a flag beside the sides: document 01's blank record has every number in it zero.
#[derive(Clone, Copy)]
pub struct Problem {
    pub open: bool,
    pub left: Items,
    pub right: Items,
    pub atoms: State,
    pub lists: [Items; 2],
    pub used: u64,
}

// How many list variables a set holds.
const DIGITS: u32 = crate::variables::DIGITS as u32;
// How much a right-side list variable counts above its number.
const NUMBERS_OF_SIDE: u8 = base_limits::NUMBERS_OF_SIDE as u8;

impl Problem {
    // The blank record.
    pub fn blank() -> Problem
        ensures { result ≡ blank_problem }
    {
        let w = Items::blank();
        Problem {
            open: false,
            left: w,
            right: w,
            atoms: State {
                atoms: [0; base_limits::PAIR_PLACES],
            },
            lists: [w; 2],
            used: 0,
        }
    }

    // How many list variables the problem and its bindings have.
    fn list_variables(&self) -> u32
        ensures { result ≡ list_variables self.now.used }
    {
        crate::variables::list_variables(self.used)
    }

    // Whether all list variables are used. Document 01: "ones count variables of a problem". No problem that is met comes to it.
    fn none_left(&self) -> bool
        ensures { result ≡ none_left self.now }
    {
        DIGITS <= self.list_variables()
    }

    // ---- what a move makes of a record

    // Binds x to s.
    fn bind(&mut self, x: u8, s: &Items)
        ensures { self.new ≡ bound_to x s.now self.old }
    {
        self.atoms = bound_atoms(x, s, self.atoms);
        self.lists = self.lists.map(|w| Items::put_in(x, s.used(), w.used()));
    }

    // What the move leaves of the equation, the bindings as they were.
    fn left_by(&self, m: &Move, fresh: u8) -> Problem
        ensures { result ≡ left_by m.now fresh self.now }
    {
        Problem {
            open: m.open,
            left: m.left,
            right: m.right,
            used: used_by(m.fresh, self.used, fresh),
            ..*self
        }
    }

    // The problem that a move makes.
    fn applied(&self, m: &Move, fresh: u8) -> Problem
        ensures { result ≡ applied_value self.now m.now fresh }
    {
        let mut q = self.left_by(m, fresh);
        if m.binds {
            q.bind(m.variable, &m.value);
        }
        q
    }

    // ---- a step

    // Whether a failure rule applies to the equation that is left.
    pub fn fails(&self, row: &[u8]) -> bool
        ensures { result ≡ fails_of (table_in row.now) self.now }
    {
        search_rules::fails(&self.left, &self.right, row)
    }

    // Whether a move gives a child.
    fn makes(&self, m: &Move) -> bool
        ensures { result ≡ makes self.now m.now }
    {
        !(m.fresh && self.none_left())
    }

    // The child that the rule of this number gives, if it gives one.
    pub fn child_of(&self, rule: usize, row: &[u8]) -> Option<Problem>
        ensures { result ≡ child_of (table_in row.now) self.now rule }
    {
        let fresh = crate::variables::fresh(self.used);
        let m = search_rules::move_of(rule, &self.left, &self.right, fresh, row)?;
        if self.makes(&m) {
            Some(self.applied(&m, fresh))
        } else {
            None
        }
    }

    // Whether the rule of this number gives a child; a and b are the heads of the sides. Nothing of the child is made.
    fn gives_by(&self, a: Head, b: Head, rule: usize) -> bool
        ensures { result ≡ gives_by self.now a b rule }
    {
        search_rules::applies(rule, &self.left, &self.right, a, b)
            && !(search_rules::brings(rule) & self.none_left())
    }

    // The first rule from k on that gives a child, by its number; RULES where none does.
    pub fn next_rule(&self, k: usize, row: &[u8]) -> usize
        ensures { result ≡ next_rule (table_in row.now) self.now k }
    {
        let a = search_rules::head_of(&self.left, row);
        let b = search_rules::head_of(&self.right, row);
        for i in k..search_rules::RULES {
            if self.gives_by(a, b, i) {
                return i;
            }
        }
        search_rules::RULES
    }
}

// An atom variable's value is one atom; a list variable changes no atom.
fn bound_atoms(x: u8, s: &Items, st: State) -> State
    ensures { result ≡ bound_atoms x s.now st }
{
    if pair_row::LISTS <= x {
        return st;
    }
    st.replace(x, s.first())
}

// The list variables used, with the fresh one where it is brought in.
fn used_by(brings: bool, used: u64, fresh: u8) -> u64
    ensures { result ≡ cond brings (with_name used fresh) used }
{
    if !brings {
        return used;
    }
    crate::variables::with_name(used, fresh)
}

// ---- the root

// Puts the codes at the places from b up to e behind those of y.
fn push_codes(y: &mut Items, b: usize, e: usize, row: &[u8])
    ensures { y.new ≡ foldl pushed y.old (codes_at row.now b (e - b)) }
{
    for i in b..e {
        y.push(pair_row::byte_at(row, i));
    }
}

// "a right-side variable counting 16 above its number". (A number over its limit, which no table has, counts by its remainder.)
fn list_number(right: bool, n: u8) -> u8
    ensures { result ≡ list_number right n }
{
    if right {
        NUMBERS_OF_SIDE + n % NUMBERS_OF_SIDE
    } else {
        n % NUMBERS_OF_SIDE
    }
}

// A field of this shape as it stands on the left side, or on the right.
fn side_items(right: bool, s: Shape, row: &[u8]) -> Items
    ensures { result ≡ side_items row.now right s }
{
    let b = s.base as usize;
    let e = b + s.head as usize;
    let mut y = Items::blank();
    push_codes(&mut y, b, e, row);
    if s.gapped {
        y.push(pair_row::LISTS + list_number(right, s.list));
        push_codes(&mut y, e + 1, e + 1 + s.tail as usize, row);
    }
    y
}

// A field's list variable, if it has one.
fn own_items(right: bool, s: Shape) -> Items
    ensures { result ≡ own_items right s }
{
    if !s.gapped {
        return Items::blank();
    }
    let n = list_number(right, s.list);
    Items::of(&[pair_row::LISTS + n])
}

// The set with the number of a field's list variable.
fn with_own(set: u64, right: bool, s: Shape) -> u64
    ensures { result ≡ with_own set right s }
{
    if !s.gapped {
        return set;
    }
    crate::variables::with_name(set, list_number(right, s.list))
}

// The equation of the first field of the left rule and the first of the right one, where each variable stands for itself.
pub fn root(row: &[u8]) -> Problem
    ensures { result ≡ root_value row.now }
{
    let a = pair_row::shape_at(row, false, 0);
    let b = pair_row::shape_at(row, true, 0);
    let left = side_items(false, a, row);
    let right = side_items(true, b, row);
    Problem {
        open: true,
        left,
        right,
        atoms: pair_state::start(row),
        lists: [own_items(false, a), own_items(true, b)],
        used: with_own(with_own(0, true, b), false, a),
    }
}
