// The tables of a pair of rules in a lent row of bytes: by place a term's type, whether it is a variable, and its code, the first place
// with the same atom; by field its shape; by variable where it stands. The constants' bytes have a row of their own.
// Reading a place that a row lacks gives 0. An item is a code, or from LISTS on a list variable.
#![tactic(auto)]

ghost use Rattle.std.specs.Prelude.{◌≡◌, ◌+◌, ◌*◌, get_or, set};
ghost use Rattle.math_codes.specs.Index.{slot_at};
ghost use Rattle.pair_row.specs.Row.{table_in, shape_in, field_of, index_in, top_in};

// ---- the row's parts

// The first of the items that are list variables: behind the places, those of an entry by field, those of a search by number.
pub const LISTS: u8 = base_limits::PAIR_PLACES as u8;
// The rank of their type, which is behind those below it.
pub const LIST_RANK: u8 = base_limits::ATOM_KINDS as u8;
// From 0 on: codes by place, the left rule's and behind them the right rule's.
pub const KINDS_AT: usize = base_limits::PAIR_PLACES;

pub const VARIABLES_AT: usize = KINDS_AT + base_limits::PAIR_PLACES;
// By field: the atoms before its list variable, those behind it, its number, and whether there is one.
pub const SHAPES_AT: usize = VARIABLES_AT + base_limits::PAIR_PLACES;

pub const SHAPE_BYTES: usize = 4;
// By variable, and by type: of the left rule, and behind them of the right rule.
pub const INDEXES_AT: usize = SHAPES_AT + SHAPE_BYTES * base_limits::PAIR_FIELDS;

pub const TOPS_AT: usize = INDEXES_AT + base_limits::VARIABLE_PLACES + base_limits::VARIABLE_PLACES;
// How many constants that differ were met, and their places.
pub const COUNT_AT: usize = TOPS_AT + base_limits::KINDS + base_limits::KINDS;

pub const MEMBERS_AT: usize = COUNT_AT + 1;

pub const ROW_BYTES: usize = MEMBERS_AT + base_limits::PAIR_PLACES;
// A constant's bytes, with their number before them.
pub const CELL_BYTES: usize = 1 + base_limits::LONGEST_STRING;

pub const TEXTS_BYTES: usize = CELL_BYTES * base_limits::PAIR_PLACES;

// A field of a rule: its first place, how many atoms stand before and behind its list variable, that variable's number, and whether there
// is one.
#[derive(Clone, Copy)]
pub struct Shape {
    pub base: u16,
    pub head: u8,
    pub tail: u8,
    pub list: u8,
    pub gapped: bool,
}

pub fn byte_at(row: &[u8], i: usize) -> u8
    ensures { result ≡ get_or row.now i 0 }
{
    if row.len() <= i {
        return 0;
    }
    row[i]
}

// A place that the row lacks stays unwritten.
pub fn put_at(row: &mut [u8], i: usize, b: u8)
    ensures { row.new ≡ set row.old i b }
{
    if i < row.len() {
        row[i] = b;
    }
}

// The rank of an item's type.
pub fn kind_at(row: &[u8], c: u8) -> u8
    ensures { result ≡ (table_in row.now).kind c }
{
    if LISTS <= c {
        return LIST_RANK;
    }
    byte_at(row, KINDS_AT + c as usize)
}

pub fn is_variable(row: &[u8], c: u8) -> bool
    ensures { result ≡ (table_in row.now).variable c }
{
    if LISTS <= c {
        return true;
    }
    byte_at(row, VARIABLES_AT + c as usize) != 0
}

// The number of field j among the pair's eight.
fn field_of(right: bool, j: u8) -> usize
    ensures { result ≡ field_of right j }
{
    if right {
        base_limits::MOST_FIELDS + j as usize
    } else {
        j as usize
    }
}

// The shape of field j of the left rule, or of the right one.
pub fn shape_at(row: &[u8], right: bool, j: u8) -> Shape
    ensures { result ≡ shape_in row.now right j }
{
    let f = field_of(right, j);
    let k = SHAPES_AT + SHAPE_BYTES * f;
    let head = byte_at(row, k);
    let tail = byte_at(row, k + 1);
    let list = byte_at(row, k + 2);
    let gapped = byte_at(row, k + 3) != 0;
    Shape {
        base: (base_limits::FIELD_PLACES * f) as u16,
        head,
        tail,
        list,
        gapped,
    }
}

// One more than the code of a rule's variable of this type and number, or 0 where the rule lacks it.
pub fn index_at(row: &[u8], right: bool, rank: u8, n: u8) -> u8
    ensures { result ≡ index_in row.now right (slot_at rank n) }
{
    let k = base_limits::NUMBERS_OF_SIDE * rank as usize + n as usize;
    if right {
        return byte_at(row, INDEXES_AT + base_limits::VARIABLE_PLACES + k);
    }
    byte_at(row, INDEXES_AT + k)
}

// More than the largest number of a rule's variables of this type.
pub fn top_at(row: &[u8], right: bool, rank: u8) -> u8
    ensures { result ≡ top_in row.now right rank }
{
    if right {
        return byte_at(row, TOPS_AT + base_limits::KINDS + rank as usize);
    }
    byte_at(row, TOPS_AT + rank as usize)
}
