// The line of an entry: its items, the numbers that their variables get, and its bytes. And that of an answer of the search.
// The writers store a byte where there is room and go on counting where there is none: with no room a line is measured.
#![tactic(auto)]

ghost use Rattle.std.specs.Prelude.{◌≡◌, true, false, List, [], ◌∷◌, ◌++◌, ◌+◌, ◌-◌, ◌*◌, ◌^◌, ◌≤◌, ◌<◌, length, get_or};
ghost use Rattle.std.proofs.lemmas.List.Edits.{sets};
ghost use Rattle.base_limits.specs.Limits.{most_fields, entry_terms, kind_count, pair_items};
ghost use Rattle.math_codes.specs.Makers.{largest_byte};
ghost use Rattle.text_grammar.specs.Numbers.{digits_of};
ghost use Rattle.math_codes.specs.Names.{name_code, name_codes, name_fields, no_names};
ghost use Rattle.math_codes.specs.Index.{name_at, slot_at};
ghost use Rattle.pair_row.specs.Row.{table_in, bytes_in, index_in};
ghost use Rattle.pair_lines.specs.Lines.{Puts, Few, count_at, side_few, numbers_few, fits, field_in, items_in, names_of, names_in, laid_in};
ghost use Rattle.pair_lines.specs.Lines.{run_at, note_run, runs_over, tag_of, blank, unled};
ghost use Rattle.pair_lines.specs.Lines.{shown_item, shown_run, shown_fields, shown_value, shown_rank, shown_values};
ghost use Rattle.pair_lines.specs.Lines.{last_field, most_count, line_in, line_bound};
ghost use Rattle.pair_lines.specs.Answers.{value_fits, whole_runs, value_with, listed_rank, listed_in, answer_in};

use overlap_entries::{Candidate, Choice};
use pair_row::{Shape, byte_at, put_at};

// Where the runs of a rule's list variables begin and end.
const RUN_PLACES: usize = 2 * base_limits::NUMBERS_OF_SIDE;
// Sizes as bytes.
const MOST_FIELDS: u8 = base_limits::MOST_FIELDS as u8;

const NUMBERS_OF_SIDE: u8 = base_limits::NUMBERS_OF_SIDE as u8;

const PAIR_ITEMS: u8 = base_limits::PAIR_ITEMS as u8;

const KINDS: u8 = base_limits::KINDS as u8;

// How many variables of each type have a number, and by item the number that it got and one; 0 for none.
#[derive(Drop)]
struct Numbering {
    counts: [u8; base_limits::KINDS],
    numbers: [u8; base_limits::PAIR_ITEMS],
}

// The items of an entry, and their numbers.
#[derive(Drop)]
struct Laid {
    items: [u8; base_limits::ENTRY_PLACES],
    names: Numbering,
}

// Where a run of items begins and ends in that row.
#[derive(Clone, Copy)]
struct Run {
    from: usize,
    to: usize,
}

// What texts are made of: the pair's tables, the bytes of its constants, and by item the number that it got and one.
#[derive(Clone, Copy)]
struct Shown<'a> {
    row: &'a [u8],
    texts: &'a [u8],
    numbers: &'a [u8],
}

// What the variables of a rule stand for: those of atoms for the atoms' codes, those of lists for items.
#[derive(Clone, Copy)]
struct Side<'a> {
    right: bool,
    atoms: &'a [u8],
    items: &'a [u8],
}

// A rule's variables as they are written, each behind a blank; where a line begins, only if `led` says so.
// `runs` has which of the items each list variable stands for.
#[derive(Clone, Copy)]
struct Bindings<'a> {
    shown: Shown<'a>,
    side: Side<'a>,
    runs: &'a [u8],
    led: bool,
}

impl Side<'_> {
    // What the atom of a variable stands for.
    fn atom_of(&self, row: &[u8], rank: u8, n: u8) -> u8
        ensures { result ≡ get_or self.now.atoms.now (index_in row.now self.now.right (slot_at rank n) - 1) 0 }
    {
        let x = pair_row::index_at(row, self.right, rank, n);
        byte_at(self.atoms, (x as usize).saturating_sub(1))
    }
}

// ---- items and their numbers

impl Numbering {
    fn none() -> Self
        ensures { names_of result ≡ no_names pair_items kind_count }
    {
        Numbering {
            counts: [0; base_limits::KINDS],
            numbers: [0; base_limits::PAIR_ITEMS],
        }
    }

    // A variable gets the next number of its type where it is met first.
    fn name_item(&mut self, row: &[u8], c: u8)
        requires { Few most_count self.old.counts }
        ensures { names_of self.new ≡ name_code (table_in row.now) (names_of self.old) c }
    {
        if !pair_row::is_variable(row, c) {
            return;
        }
        if byte_at(&self.numbers, c as usize) != 0 {
            return;
        }
        let k = pair_row::kind_at(row, c) as usize;
        let n = byte_at(&self.counts, k) + 1;
        put_at(&mut self.counts, k, n);
        put_at(&mut self.numbers, c as usize, n);
    }

    // Items, from the left.
    fn name_items(&mut self, row: &[u8], items: &[u8])
        requires { Few most_count (name_codes (table_in row.now) (names_of self.old) items.now).counts }
        ensures { names_of self.new ≡ name_codes (table_in row.now) (names_of self.old) items.now }
    {
        for c in items {
            self.name_item(row, *c);
        }
    }

    // Those of the value of a rule's variable; every list variable of the rule has the same items.
    fn name_value(&mut self, row: &[u8], side: &Side, rank: u8, n: u8)
        requires { Few most_count (name_codes (table_in row.now) (names_of self.old)
            (value_with row.now side.now.right side.now.atoms.now side.now.items.now rank n)).counts }
        ensures { names_of self.new ≡ name_codes (table_in row.now) (names_of self.old)
            (value_with row.now side.now.right side.now.atoms.now side.now.items.now rank n) }
    {
        if rank < pair_row::LIST_RANK {
            self.name_item(row, side.atom_of(row, rank, n));
            return;
        }
        self.name_items(row, side.items);
    }

    // Those of the variables of one type that the rule has, in the order of their numbers.
    fn name_rank(&mut self, row: &[u8], side: &Side, rank: u8)
        requires { Few most_count (name_fields (table_in row.now) (names_of self.old)
            (listed_rank row.now side.now.right side.now.atoms.now side.now.items.now rank)).counts }
        ensures { names_of self.new ≡ name_fields (table_in row.now) (names_of self.old)
            (listed_rank row.now side.now.right side.now.atoms.now side.now.items.now rank) }
    {
        for n in 0..pair_row::top_at(row, side.right, rank) {
            if pair_row::index_at(row, side.right, rank, n) != 0 {
                self.name_value(row, side, rank, n);
            }
        }
    }

    // Those of all variables of the rule, type by type: in the order in which the line has their values.
    fn name_values(&mut self, row: &[u8], side: &Side)
        requires { Few most_count (name_fields (table_in row.now) (names_of self.old)
            (listed_in row.now side.now.right side.now.atoms.now side.now.items.now)).counts }
        ensures { names_of self.new ≡ name_fields (table_in row.now) (names_of self.old)
            (listed_in row.now side.now.right side.now.atoms.now side.now.items.now) }
    {
        for rank in 0..KINDS {
            self.name_rank(row, side, rank);
        }
    }
}

// How many items field j has.
fn count_in(c: Choice, j: u8) -> usize
    requires { j < most_fields }
    ensures { result ≡ count_at c j }
{
    let Candidate { items, long } = c.fields[j as usize];
    overlap_entries::item_count(items, long)
}

// The items of field j, and their numbers.
fn lay_field(row: &[u8], j: u8, c: Choice, atoms: &[u8], items: &mut [u8], names: &mut Numbering)
    requires { (j < most_fields) × (count_at c j ≤ entry_terms)
        × Few (entry_terms * j) names.old.counts }
    ensures after { items.new ≡ sets items.old (entry_terms * j)
        (field_in row.now c atoms.now j) }
    ensures names_after { names_of names.new ≡ name_codes (table_in row.now) (names_of names.old) (field_in row.now c atoms.now j) }
{
    let s = pair_row::shape_at(row, false, j);
    let t = pair_row::shape_at(row, true, j);
    let Candidate { items: n, long } = c.fields[j as usize];
    let from = base_limits::ENTRY_TERMS * j as usize;
    for i in 0..overlap_entries::item_count(n, long) {
        let x = overlap_entries::item_at(s, t, n, long, pair_row::LISTS + j, i as u16, atoms);
        put_at(items, from + i, x);
        names.name_item(row, x);
    }
}

// All items of a choice, and their numbers.
fn lay(row: &[u8], fields: u8, c: Choice, atoms: &[u8]) -> Laid
    requires { fits fields c ≡ true }
    ensures items_value { result.items ≡ laid_in row.now fields c atoms.now }
    ensures names_value { names_of result.names ≡ names_in row.now fields c atoms.now }
{
    let mut items = [0u8; base_limits::ENTRY_PLACES];
    let mut names = Numbering::none();
    for j in 0..fields {
        lay_field(row, j, c, atoms, &mut items, &mut names);
    }
    Laid { items, names }
}

// ---- bytes: each piece is put at a place, as far as there is room, and returns the place behind it
// Those that an entry calls for each of its items are inlined, since a call for each takes longer.

#[inline(always)]
fn put_byte(b: u8, out: &mut [u8], at: usize) -> usize
    requires { at + 1 < 2 ^ 64 }
    ensures { Puts (b ∷ []) at out.old result out.new }
{
    if at < out.len() {
        out[at] = b;
    }
    at + 1
}

fn put_digits(n: u8, out: &mut [u8], at: usize) -> usize
    requires { at + length (digits_of n) < 2 ^ 64 }
    ensures { Puts (digits_of n) at out.old result out.new }
{
    if n < 10 {
        return put_byte(b'0' + n, out, at);
    }
    if n < 100 {
        let p = put_byte(b'0' + n / 10, out, at);
        return put_byte(b'0' + n % 10, out, p);
    }
    let p = put_byte(b'0' + n / 100, out, at);
    let q = put_byte(b'0' + n / 10 % 10, out, p);
    put_byte(b'0' + n % 10, out, q)
}

#[inline(always)]
fn put_bytes(bytes: &[u8], out: &mut [u8], at: usize) -> usize
    requires { at + length bytes.now < 2 ^ 64 }
    ensures { Puts bytes.now at out.old result out.new }
{
    let mut q = at;
    for b in bytes {
        q = put_byte(*b, out, q);
    }
    q
}

// The bytes of a constant.
#[inline(always)]
fn put_constant(texts: &[u8], c: u8, out: &mut [u8], at: usize) -> usize
    requires { at + length (bytes_in texts.now c) < 2 ^ 64 }
    ensures { Puts (bytes_in texts.now c) at out.old result out.new }
{
    let k = pair_row::CELL_BYTES * c as usize;
    let n = byte_at(texts, k) as usize;
    let to = (k + 1 + n).min(texts.len());
    let from = (k + 1).min(to);
    put_bytes(&texts[from..to], out, at)
}

impl Shown<'_> {
    // The text of an item: a type's letter and a number, or a constant's plain text, a string between quotes.
    #[inline(always)]
    fn put_item(&self, c: u8, out: &mut [u8], at: usize) -> usize
        requires { at + length (shown_item self.now c) < 2 ^ 64 }
        ensures { Puts (shown_item self.now c) at out.old result out.new }
    {
        let kind = pair_row::kind_at(self.row, c);
        if pair_row::is_variable(self.row, c) {
            let p = put_byte(text_grammar::letter_at(kind), out, at);
            let n = byte_at(self.numbers, c as usize);
            return put_digits(n.saturating_sub(1), out, p);
        }
        if kind != 1 {
            return put_constant(self.texts, c, out, at);
        }
        let p = put_byte(b'"', out, at);
        let q = put_constant(self.texts, c, out, p);
        put_byte(b'"', out, q)
    }

    // The items of a run with `:` between them; of none `empty`.
    #[inline(always)]
    fn put_run(&self, run: &[u8], out: &mut [u8], at: usize) -> usize
        requires { at + length (shown_run self.now run.now) < 2 ^ 64 }
        ensures { Puts (shown_run self.now run.now) at out.old result out.new }
    {
        let Some((first, others)) = run.split_first() else {
            return put_bytes(b"empty", out, at);
        };
        let mut q = self.put_item(*first, out, at);
        for c in others {
            let p = put_byte(b':', out, q);
            q = self.put_item(*c, out, p);
        }
        q
    }

    // The entry's fields with `|` between them.
    #[inline(always)]
    fn put_fields(&self, fields: u8, c: Choice, atoms: &[u8], items: &[u8], out: &mut [u8]) -> usize
        requires c_value { (fits fields c ≡ true) × (items.now ≡ laid_in self.now.row.now fields c atoms.now) }
        requires atoms_len_bound { length (shown_fields self.now (items_in self.now.row.now fields c atoms.now)) < 2 ^ 64 }
        ensures { Puts (shown_fields self.now (items_in self.now.row.now fields c atoms.now)) 0 out.old result out.new }
    {
        let mut q: usize = 0;
        for j in 0..fields {
            let mut p = q;
            if 0 < j {
                p = put_byte(b'|', out, q);
            }
            let from = base_limits::ENTRY_TERMS * j as usize;
            let to = from + count_in(c, j);
            q = self.put_run(&items[from..to], out, p);
        }
        q
    }
}

// ---- values

// Behind `head` items and before the last `tail` of `count`, which stand from a place on.
fn run_in(from: usize, count: usize, head: usize, tail: usize) -> Run
    requires { (from ≤ last_field) × (count ≤ entry_terms) × (head ≤ largest_byte) × (tail ≤ largest_byte) }
    ensures { result ≡ run_at from count head tail }
{
    if count < head + tail {
        return Run { from, to: from };
    }
    Run {
        from: from + head,
        to: from + (count - tail),
    }
}

// A field's list variable: where its run begins and ends is noted by its number. The field's items stand from a place on.
fn note_run(runs: &mut [u8], s: Shape, from: usize, count: usize)
    requires { (from ≤ last_field) × (count ≤ entry_terms) }
    ensures { runs.new ≡ note_run s from count runs.old }
{
    if !s.gapped {
        return;
    }
    let r = run_in(from, count, s.head as usize, s.tail as usize);
    let at = 2 * s.list as usize;
    put_at(runs, at, r.from as u8);
    put_at(runs, at + 1, r.to as u8);
}

// The runs of a rule's list variables; where two fields have the same one, the first counts.
fn put_runs(row: &[u8], right: bool, fields: u8, c: Choice, runs: &mut [u8])
    requires { fits fields c ≡ true }
    ensures { runs.new ≡ runs_over row.now right c runs.old 0 fields }
{
    for j in (0..fields).rev() {
        let s = pair_row::shape_at(row, right, j);
        note_run(
            runs,
            s,
            base_limits::ENTRY_TERMS * j as usize,
            count_in(c, j),
        );
    }
}

// A blank, but not where a line begins; `led` has one there too.
fn put_blank(led: bool, out: &mut [u8], at: usize) -> usize
    requires { at + 1 < 2 ^ 64 }
    ensures { Puts (blank led at) at out.old result out.new }
{
    if !led && at == 0 {
        return at;
    }
    put_byte(b' ', out, at)
}

// A rule's tag and a variable's name: ` <a0=`.
fn put_name(led: bool, right: bool, rank: u8, n: u8, out: &mut [u8], at: usize) -> usize
    requires { at + (4 + length (digits_of n)) < 2 ^ 64 }
    ensures { Puts (unled led at (32 ∷ (tag_of right ∷ (name_at rank n ++ 61 ∷ [])))) at out.old result out.new }
{
    let a = put_blank(led, out, at);
    let b = put_byte(if right { b'>' } else { b'<' }, out, a);
    let c = put_byte(text_grammar::letter_at(rank), out, b);
    let d = put_digits(n, out, c);
    put_byte(b'=', out, d)
}

impl Bindings<'_> {
    // The value of a variable: what its atom stands for, or a run of items. `runs` has where those of the list variables stand.
    fn put_value(&self, rank: u8, n: u8, out: &mut [u8], at: usize) -> usize
        requires { at + length (shown_run self.now.shown (shown_value self.now rank n)) < 2 ^ 64 }
        ensures { Puts (shown_run self.now.shown (shown_value self.now rank n)) at out.old result out.new }
    {
        if rank < pair_row::LIST_RANK {
            let x = self.side.atom_of(self.shown.row, rank, n);
            return self.shown.put_item(x, out, at);
        }
        let k = 2 * n as usize;
        let to = (byte_at(self.runs, k + 1) as usize).min(self.side.items.len());
        let from = (byte_at(self.runs, k) as usize).min(to);
        self.shown.put_run(&self.side.items[from..to], out, at)
    }

    // The variables of one type that the rule has, in the order of their numbers.
    fn put_rank(&self, rank: u8, out: &mut [u8], at: usize) -> usize
        requires { at + length (shown_rank self.now rank) < 2 ^ 64 }
        ensures { Puts (unled self.now.led at (shown_rank self.now rank)) at out.old result out.new }
    {
        let top = pair_row::top_at(self.shown.row, self.side.right, rank);
        let mut q = at;
        for n in 0..top {
            if pair_row::index_at(self.shown.row, self.side.right, rank, n) != 0 {
                let p = put_name(self.led, self.side.right, rank, n, out, q);
                q = self.put_value(rank, n, out, p);
            }
        }
        q
    }

    // All variables of the rule, type by type.
    fn put_values(&self, out: &mut [u8], at: usize) -> usize
        requires { at + length (shown_values self.now) < 2 ^ 64 }
        ensures { Puts (unled self.now.led at (shown_values self.now)) at out.old result out.new }
    {
        let mut q = at;
        for k in 0..KINDS {
            q = self.put_rank(k, out, q);
        }
        q
    }
}

// ---- the line

// Whether a choice is one of as many fields, and of as many items each, as an entry may have.
fn fits(fields: u8, c: Choice) -> bool
    ensures { result ≡ fits fields c }
{
    fields <= MOST_FIELDS
        && c.fields.iter().take(fields as usize).all(|x| overlap_entries::item_count(
            x.items, x.long,
        ) <= base_limits::ENTRY_TERMS)
}

// Whether no number of a rule's variables is above its limit.
fn side_few(row: &[u8], right: bool) -> bool
    ensures { result ≡ side_few row.now right }
{
    (0..KINDS).all(|rank| pair_row::top_at(row, right, rank) <= NUMBERS_OF_SIDE)
}

fn numbers_few(row: &[u8]) -> bool
    ensures { result ≡ numbers_few row.now }
{
    side_few(row, false) && side_few(row, true)
}

// The line of a choice and the codes that its last state has, into the lent bytes as far as they go; and its size.
// A choice that no rules have, of too many fields or items, has no line, nor have tables with too many variables.
pub fn put_line(
    row: &[u8],
    texts: &[u8],
    fields: u8,
    c: Choice,
    atoms: &[u8],
    out: &mut [u8],
) -> usize
    ensures puts { Puts (line_in row.now texts.now fields c atoms.now) 0 out.old result
        out.new }
    ensures upper_bound { result ≤ line_bound }
{
    if !fits(fields, c) {
        return 0;
    }
    if !numbers_few(row) {
        return 0;
    }
    let x = lay(row, fields, c, atoms);
    let mut left = [0u8; RUN_PLACES];
    put_runs(row, false, fields, c, &mut left);
    let mut right = [0u8; RUN_PLACES];
    put_runs(row, true, fields, c, &mut right);
    let shown = Shown {
        row,
        texts,
        numbers: &x.names.numbers,
    };
    let left_side = Side {
        right: false,
        atoms,
        items: &x.items,
    };
    let right_side = Side {
        right: true,
        atoms,
        items: &x.items,
    };
    let of_left = Bindings {
        shown,
        side: left_side,
        runs: &left,
        led: true,
    };
    let of_right = Bindings {
        side: right_side,
        runs: &right,
        ..of_left
    };
    let p = shown.put_fields(fields, c, atoms, &x.items, out);
    let q = of_left.put_values(out, p);
    let r = of_right.put_values(out, q);
    put_byte(b'\n', out, r)
}

// ---- the line of an answer of the search

// Whether a list variable's value is one that an answer has: no more items than an entry's field, each a code or a list variable.
fn value_fits(items: &[u8]) -> bool
    ensures { result ≡ value_fits items.now }
{
    items.len() <= base_limits::ENTRY_TERMS && items.iter().all(|c| *c < PAIR_ITEMS)
}

// Where the runs of a rule's list variables stand that are the first n items each.
fn whole_runs(n: u8) -> [u8; RUN_PLACES]
    ensures { result ≡ whole_runs n }
{
    std::array::from_fn(|i| if i % 2 == 0 { 0 } else { n })
}

// The line of an answer: the values of the left rule's variables, then of the right one's, by what the atoms stand for and the items that
// the list variables of each side stand for; and its size. Values that no search has, of too many items, have no line, nor have tables
// with too many variables.
pub fn put_answer(
    row: &[u8],
    texts: &[u8],
    atoms: &[u8],
    left: &[u8],
    right: &[u8],
    out: &mut [u8],
) -> usize
    ensures puts { Puts (answer_in row.now texts.now atoms.now left.now right.now) 0
        out.old result out.new }
    ensures upper_bound { result ≤ line_bound }
{
    if !numbers_few(row) {
        return 0;
    }
    if !value_fits(left) {
        return 0;
    }
    if !value_fits(right) {
        return 0;
    }
    let left_side = Side {
        right: false,
        atoms,
        items: left,
    };
    let right_side = Side {
        right: true,
        atoms,
        items: right,
    };
    let mut names = Numbering::none();
    names.name_values(row, &left_side);
    names.name_values(row, &right_side);
    let of_left = Bindings {
        shown: Shown {
            row,
            texts,
            numbers: &names.numbers,
        },
        side: left_side,
        runs: &whole_runs(left.len() as u8),
        led: false,
    };
    let of_right = Bindings {
        side: right_side,
        runs: &whole_runs(right.len() as u8),
        ..of_left
    };
    let p = of_left.put_values(out, 0);
    let q = of_right.put_values(out, p);
    put_byte(b'\n', out, q)
}
