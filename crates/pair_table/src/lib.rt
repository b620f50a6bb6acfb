// Making the tables of a pair of rules: each term that is read is noted at its place. A constant's bytes are compared here, once, and
// never again.
#![tactic(auto)]

ghost use Rattle.std.specs.Prelude.{◌≡◌, cond, ◌+◌, ◌-◌, ◌*◌, ◌≤◌, ◌<◌, length, get_or};
ghost use Rattle.std.proofs.lemmas.List.Edits.{sets};
ghost use Rattle.base_limits.specs.Limits.{most_fields, longest_string, kind_count, numbers_of_side, pair_places, pair_fields};
ghost use Rattle.base_lists.specs.Seqs.{tabulate};
ghost use Rattle.math_types.specs.Types.{rank};
ghost use Rattle.math_types.specs.Values.{kind_of};
ghost use Rattle.text_grammar.specs.constants.Constants.{signed};
ghost use Rattle.math_codes.specs.Texts.{zeros};
ghost use Rattle.text_scan.specs.declared.Literal.TheVariants.{Int};
ghost use Rattle.pair_row.specs.Row.{cell_bytes, field_of};
ghost use Rattle.pair_table.specs.Notes.{part_of, is_field, terms_in, classed, celled, same_constant, code_in, joined_member};
ghost use Rattle.pair_table.specs.Notes.{constant_noted, literal_noted, side_of, indexed, topped, variable_noted, more, shape_noted};
ghost use Rattle.pair_table.specs.Notes.{note_by, Kept};
ghost use Rattle.pair_table.specs.Notes.{note_lexeme};

use math_types::Kind;
use pair_row::{byte_at, put_at};
use text_scan::{Lexeme, Literal, Spelled};

// Sizes of the types that the tables have.
const MOST_TERMS: u8 = base_limits::MOST_TERMS as u8;

const NUMBERS_OF_SIDE: u32 = base_limits::NUMBERS_OF_SIDE as u32;
// What a field's number among the pair's is above its number on the right side, counted from 1.
const RIGHT_FIELDS: usize = base_limits::MOST_FIELDS - 1;

// The row of a pair's tables, and the bytes of its constants.
#[derive(Drop)]
struct Tables<'a> {
    row: &'a mut [u8],
    texts: &'a mut [u8],
}

// ---- constants

// The bytes of a text from a place on, n of them, in the cell of place p behind the first k of its bytes.
fn put_bytes(texts: &mut [u8], p: u8, k: usize, text: &[u8], from: usize, n: usize)
    requires { (n ≤ longest_string) × (from ≤ length text.now) × (k ≤ 2) }
    ensures { texts.new ≡ sets texts.old (cell_bytes * p + k) (part_of text.now from n) }
{
    let at = pair_row::CELL_BYTES * p as usize + k;
    for i in 0..n {
        put_at(texts, at + i, byte_at(text, from + i));
    }
}

// They become the bytes of the constant at place p, behind a minus or not.
fn put_cell(texts: &mut [u8], p: u8, minus: bool, text: &[u8], from: usize, n: usize)
    requires { (n ≤ longest_string) × (from ≤ length text.now) }
    ensures { texts.new ≡ celled p (signed minus (part_of text.now from n)) texts.old }
{
    let at = pair_row::CELL_BYTES * p as usize;
    if minus {
        put_at(texts, at, n as u8 + 1);
        put_at(texts, at + 1, b'-');
        put_bytes(texts, p, 2, text, from, n);
        return;
    }
    put_at(texts, at, n as u8);
    put_bytes(texts, p, 1, text, from, n);
}

// The type's rank of the term at place p, and whether it is a variable.
fn put_class(row: &mut [u8], p: u8, rank: u8, variable: bool)
    ensures { row.new ≡ classed p rank (cond variable 1 0) row.old }
{
    put_at(row, pair_row::KINDS_AT + p as usize, rank);
    put_at(row, pair_row::VARIABLES_AT + p as usize, u8::from(variable));
}

// The constant at place p is one more member. (There are no more than places.)
fn join_member(row: &mut [u8], p: u8)
    ensures { row.new ≡ joined_member p row.old }
{
    let k = byte_at(row, pair_row::COUNT_AT);
    if pair_row::LISTS <= k {
        return;
    }
    put_at(row, pair_row::MEMBERS_AT + k as usize, p);
    put_at(row, pair_row::COUNT_AT, k + 1);
}

// Where the plain text of an integer of n digits begins: its leading zeros are skipped, but for the last digit.
fn leading_zeros(text: &[u8], at: usize, n: usize) -> usize
    requires { (n ≤ longest_string) × (at ≤ length text.now) }
    ensures value { result ≡ zeros (part_of text.now at n) }
    ensures upper_bound { result ≤ n }
    ensures result_in_bounds { at + result ≤ length text.now }
{
    let last = n.saturating_sub(1);
    for i in 0..last {
        if byte_at(text, at + i) != b'0' {
            return i;
        }
    }
    last
}

impl Tables<'_> {
    // Whether the constants at two places are one: their types and all their bytes.
    fn same_constant(&self, p: u8, q: u8) -> bool
        ensures { result ≡ same_constant self.now.row.now self.now.texts.now p q }
    {
        if byte_at(self.row, pair_row::KINDS_AT + p as usize)
            != byte_at(self.row, pair_row::KINDS_AT + q as usize)
        {
            return false;
        }
        let a = pair_row::CELL_BYTES * p as usize;
        let b = pair_row::CELL_BYTES * q as usize;
        let n = byte_at(self.texts, a) as usize;
        (0..n + 1).all(|i| byte_at(self.texts, a + i) == byte_at(self.texts, b + i))
    }

    // The code of the constant at place p: the place of the member that it is, else its own.
    fn code_of(&self, p: u8) -> u8
        ensures { result ≡ code_in self.now.row.now self.now.texts.now p }
    {
        let n = byte_at(self.row, pair_row::COUNT_AT) as usize;
        for k in 0..n {
            let q = byte_at(self.row, pair_row::MEMBERS_AT + k);
            if self.same_constant(p, q) {
                return q;
            }
        }
        p
    }

    // A constant stands at place p; its bytes are n of the text from a place on, behind a minus or not.
    fn note_constant(&mut self, p: u8, rank: u8, minus: bool, text: &[u8], from: usize, n: usize)
        requires { (n ≤ longest_string) × (from ≤ length text.now) }
        ensures kept { Kept self.old self.new }
        ensures texts_after { self.new.texts.now ≡ celled p (signed minus (part_of text.now from n)) self.old.texts.now }
        ensures row_after { self.new.row.now ≡ constant_noted p rank
            (celled p (signed minus (part_of text.now from n)) self.old.texts.now) self.old.row.now }
    {
        put_cell(self.texts, p, minus, text, from, n);
        put_class(self.row, p, rank, false);
        let c = self.code_of(p);
        put_at(self.row, p as usize, c);
        if c == p {
            join_member(self.row, p);
        }
    }

    // The integer that is written at a place of the text, with a minus or not and n digits of value v, stands at place p.
    fn note_integer(&mut self, p: u8, text: &[u8], at: usize, minus: bool, n: usize, v: u32)
        requires { (n ≤ longest_string) × (at < length text.now) }
        ensures kept { Kept self.old self.new }
        ensures row_after { self.new.row.now
            ≡ (literal_noted text.now at p (Int minus) n v self.old.row.now self.old.texts.now).0 }
        ensures texts_after { self.new.texts.now
            ≡ (literal_noted text.now at p (Int minus) n v self.old.row.now self.old.texts.now).1 }
    {
        let from = at + text_grammar::sign_size(minus);
        let z = leading_zeros(text, from, n);
        self.note_constant(p, 0, text_grammar::sign_of(minus, v), text, from + z, n - z);
    }

    // The constant that is written at a place of the text as l, with n digits of value v, or n bytes, stands at place p.
    fn note_literal(&mut self, p: u8, text: &[u8], at: usize, l: Literal, n: usize, v: u32)
        requires { (n ≤ longest_string) × (at < length text.now) }
        ensures kept { Kept self.old self.new }
        ensures row_after { self.new.row.now ≡ (literal_noted text.now at p l n v self.old.row.now self.old.texts.now).0 }
        ensures texts_after { self.new.texts.now ≡ (literal_noted text.now at p l n v self.old.row.now self.old.texts.now).1 }
    {
        match l {
            Literal::Int(minus) => self.note_integer(p, text, at, minus, n, v),
            Literal::Str => self.note_constant(p, 1, false, text, at + 1, n),
        }
    }

    // The term t is the one at place p, which is a place of field f.
    fn note_term(&mut self, right: bool, text: &[u8], at: usize, f: usize, p: u8, t: Lexeme)
        requires { (at < length text.now) × (f < pair_fields) × (p < pair_places) × (t.size ≤ longest_string) }
        ensures kept { Kept self.old self.new }
        ensures row_after { self.new.row.now
            ≡ (note_by right text.now at f p t.what t.size t.value self.old.row.now self.old.texts.now).0 }
        ensures texts_after { self.new.texts.now
            ≡ (note_by right text.now at f p t.what t.size t.value self.old.row.now self.old.texts.now).1 }
    {
        match t.what {
            Spelled::Con(l) => {
                note_shape(self.row, f, false, 0);
                self.note_literal(p, text, at, l, t.size, t.value);
            }
            Spelled::Var(k) => {
                let n = (t.value % NUMBERS_OF_SIDE) as u8;
                note_shape(self.row, f, math_types::is_list(k), n);
                note_variable(self.row, p, right, rank_of(k), n);
            }
            Spelled::Empty => {}
        }
    }
}

// ---- variables

// The place of a variable that is met first is its code.
fn put_index(row: &mut [u8], i: usize, p: u8)
    requires { p < pair_places }
    ensures { row.new ≡ indexed i p row.old }
{
    let x = byte_at(row, i);
    if x == 0 {
        put_at(row, i, p + 1);
        put_at(row, p as usize, p);
        return;
    }
    put_at(row, p as usize, x - 1);
}

// More than the largest number, with n among the numbers.
fn put_top(row: &mut [u8], t: usize, n: u8)
    requires { n < numbers_of_side }
    ensures { row.new ≡ topped t n row.old }
{
    if byte_at(row, t) <= n {
        put_at(row, t, n + 1);
    }
}

fn side_of(right: bool) -> usize
    ensures value { result ≡ side_of right }
    ensures upper_bound { result ≤ 1 }
{
    usize::from(right)
}

// A rule's variable stands at place p.
fn note_variable(row: &mut [u8], p: u8, right: bool, rank: u8, n: u8)
    requires { (p < pair_places) × (rank < kind_count) × (n < numbers_of_side) }
    ensures { row.new ≡ variable_noted p right rank n row.old }
{
    let side = side_of(right);
    put_class(row, p, rank, true);
    put_index(
        row,
        pair_row::INDEXES_AT
            + base_limits::VARIABLE_PLACES * side
            + base_limits::NUMBERS_OF_SIDE * rank as usize
            + n as usize,
        p,
    );
    put_top(
        row,
        pair_row::TOPS_AT + base_limits::KINDS * side + rank as usize,
        n,
    );
}

// ---- shapes

// Field f of the pair's eight has a term more: a list variable of number n, or another. (No field has more than its places.)
fn note_shape(row: &mut [u8], f: usize, list: bool, n: u8)
    requires { f < pair_fields }
    ensures { row.new ≡ shape_noted f list n row.old }
{
    let k = pair_row::SHAPES_AT + pair_row::SHAPE_BYTES * f;
    if byte_at(row, k + 3) != 0 {
        let t = byte_at(row, k + 1);
        put_at(row, k + 1, more(t));
        return;
    }
    if list {
        put_at(row, k + 2, n);
        put_at(row, k + 3, 1);
        return;
    }
    let h = byte_at(row, k);
    put_at(row, k, more(h));
}

fn more(n: u8) -> u8
    ensures { result ≡ more n }
{
    if MOST_TERMS <= n { MOST_TERMS } else { n + 1 }
}

// ---- terms

fn rank_of(k: Kind) -> u8
    ensures value { result ≡ rank (kind_of k) }
    ensures upper_bound { result < kind_count }
{
    math_types::rank(k) as u8
}

fn is_field(field: usize) -> bool
    ensures { result ≡ is_field field }
{
    (1..=base_limits::MOST_FIELDS).contains(&field)
}

// How many terms of field f are noted.
fn terms_in(row: &[u8], f: usize) -> usize
    requires { f < pair_fields }
    ensures { result ≡ terms_in row.now f }
{
    let k = pair_row::SHAPES_AT + pair_row::SHAPE_BYTES * f;
    let n = byte_at(row, k) as usize + byte_at(row, k + 1) as usize;
    n + usize::from(byte_at(row, k + 3) != 0)
}

// The number of a rule's field among the pair's eight.
fn field_among(right: bool, field: usize) -> usize
    requires { (1 ≤ field) × (field ≤ most_fields) }
    ensures value { result ≡ field_of right (field - 1) }
    ensures upper_bound { result < pair_fields }
{
    if right {
        field + RIGHT_FIELDS
    } else {
        field - 1
    }
}

// The term t, which stands at a place of a rule's text, is the next one of that field, counted from 1; `empty` is no term.
// One that no reading returns is not noted.
pub fn note(
    row: &mut [u8],
    texts: &mut [u8],
    right: bool,
    text: &[u8],
    at: usize,
    field: usize,
    t: Lexeme,
)
    ensures row_after { row.new ≡ (note_lexeme right text.now at field t row.old texts.old).0 }
    ensures texts_after { texts.new ≡ (note_lexeme right text.now at field t row.old texts.old).1 }
{
    if !is_field(field) {
        return;
    }
    let f = field_among(right, field);
    let k = terms_in(row, f);
    if base_limits::MOST_TERMS <= k {
        return;
    }
    if text.len() <= at {
        return;
    }
    if base_limits::LONGEST_STRING < t.size {
        return;
    }
    let p = (base_limits::FIELD_PLACES * f + k) as u8;
    Tables { row, texts }.note_term(right, text, at, f, p, t);
}
