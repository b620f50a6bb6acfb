// The text of a match: `no` or `yes`, how many of the slip's items were compared, and with `yes` the value of each of the rule's variables.
// It works on texts that were just read: one field is built at a time, and which variables the rule has is noted once.
ghost use Rattle.std.specs.Prelude.{◌≡◌, false, ◌||◌, map, ◌≤◌, get_or};
ghost use Rattle.math_types.specs.Order.{list};
ghost use Rattle.math_types.specs.Types.{rank};
ghost use Rattle.math_types.specs.Values.{kind_of};
ghost use Rattle.text_grammar.specs.Plain.{field_text};
ghost use Rattle.text_values.specs.Values.{blank_slip_field, view_term, view_field};
ghost use Rattle.match_fields.specs.bindings.Values.{slot};
ghost use Rattle.overlap_spec.specs.Variables.{is_variable, in_field, occurs};
ghost use Rattle.match_rules.specs.Answers.{comparison_on};
ghost use Rattle.text_write.specs.pieces.Placed.{PlacedOn};
ghost use Rattle.text_passes.specs.Fields.{field_count};
ghost use Rattle.match_rules.specs.texts.Texts.{side_fields, slip_fields};
ghost use Rattle.print_matches.specs.answers.Values.{items_from, run_text, atom_text, list_text, name_text, said_values};
ghost use Rattle.print_matches.specs.answers.Values.{said_match, Noted, noted_text};

use match_fields::bindings::{Filling, Run, Values};
use math_types::Kind;
use text_values::{Field, Form, SlipField, Term};
use text_write::pieces::Page;

// The same as a variable's number.
const NUMBERS_OF_SIDE: u8 = base_limits::NUMBERS_OF_SIDE as u8;

// Which variables a rule has: a place for each number of each type, in the order of the types.
#[derive(Clone, Copy)]
struct Variables {
    has: [bool; base_limits::VARIABLE_PLACES],
}

// ---- the rule's variables

// With the term, where it is a variable.
fn note_term(v: Variables, t: Term) -> Variables
    ensures { Noted result.has (λ k n. is_variable k n (view_term t) || get_or v.has (slot k n) false) }
{
    let form = t.form;
    match form {
        Form::Con(_) => v,
        Form::Var(k, n) => {
            if NUMBERS_OF_SIDE <= n {
                return v;
            }
            let i = match_fields::bindings::slot(k, n);
            let mut w = v;
            w.has[i] = true;
            w
        }
    }
}

fn note_field(v: Variables, f: Field) -> Variables
    ensures { Noted result.has (λ k n. in_field k n (view_field f) || get_or v.has (slot k n) false) }
{
    let terms = f.n.min(base_limits::MOST_TERMS);
    let mut w = v;
    for t in &f.terms[..terms] {
        w = note_term(w, *t);
    }
    w
}

fn variables_in(rule: &[u8]) -> Variables
    ensures { Noted result.has (λ k n. occurs k n (map view_field (side_fields rule.now))) }
{
    let mut v = Variables {
        has: [false; base_limits::VARIABLE_PLACES],
    };
    for j in 0..text_passes::field_count(rule) {
        v = note_field(v, text_passes::field_in(rule, j));
    }
    v
}

// ---- values: pieces of a page

// So many items of a field from one on, with a `:` between them; no items are `empty`.
fn put_items(page: &mut Page, f: SlipField, start: usize, count: usize)
    ensures { PlacedOn (field_text (map view_term (items_from f start count))) page.old page.new }
{
    let n = f.n.min(base_limits::MOST_ITEMS);
    let from = start.min(n);
    let end = from + count.min(n - from);
    if end == from {
        return page.put_bytes(b"empty");
    }
    page.put_term(f.terms[from]);
    for i in from + 1..end {
        page.put_bytes(b":");
        page.put_term(f.terms[i]);
    }
}

// The field of a slip with so many fields; there is none behind them.
fn field_at(slip: &[u8], fields: usize, j: usize) -> SlipField
    requires { fields ≡ field_count slip.now }
    ensures { result ≡ get_or (slip_fields slip.now) j blank_slip_field }
{
    if fields <= j {
        return text_values::no_terms();
    }
    text_passes::field_in(slip, j)
}

fn put_run(page: &mut Page, slip: &[u8], fields: usize, r: Run)
    requires { fields ≡ field_count slip.now }
    ensures { PlacedOn (run_text (slip_fields slip.now) r) page.old page.new }
{
    let f = field_at(slip, fields, r.field);
    put_items(page, f, r.start, r.count);
}

// A blank, the variable's name and `=`.
fn put_name(page: &mut Page, k: Kind, n: u8)
    ensures { PlacedOn (name_text (kind_of k) n) page.old page.new }
{
    let name = Term {
        form: Form::Var(k, n),
        text: [0; base_limits::LONGEST_STRING],
    };
    page.put_bytes(b" ");
    page.put_term(name);
    page.put_bytes(b"=");
}

// The rule's variables of one type, by number, each with its value. A list variable has no place among the values.
fn put_atoms(page: &mut Page, k: Kind, rule: Variables, v: Values)
    requires { rank (kind_of k) ≤ 2 }
    ensures { PlacedOn (noted_text rule.has (kind_of k) (atom_text v (kind_of k))) page.old page.new }
{
    let first = match_fields::bindings::slot(k, 0);
    for n in 0..NUMBERS_OF_SIDE {
        let i = first + n as usize;
        if rule.has[i] {
            put_name(page, k, n);
            page.put_term(v.terms[i]);
        }
    }
}

fn put_lists(page: &mut Page, rule: Variables, slip: &[u8], x: Filling)
    ensures { PlacedOn (noted_text rule.has list (list_text (slip_fields slip.now) x)) page.old page.new }
{
    let fields = text_passes::field_count(slip);
    for n in 0..NUMBERS_OF_SIDE {
        let i = n as usize;
        if rule.has[base_limits::ATOM_PLACES + i] {
            put_name(page, Kind::List, n);
            put_run(page, slip, fields, x.runs[i]);
        }
    }
}

fn put_values(page: &mut Page, rule: &[u8], slip: &[u8], x: Filling)
    ensures { PlacedOn (said_values (side_fields rule.now) (slip_fields slip.now) x) page.old page.new }
{
    let r = variables_in(rule);
    let v = x.values;
    // the types below list have the ranks below list's
    for i in 0..math_types::rank(Kind::List) {
        put_atoms(page, math_types::kind_at(i), r, v);
    }
    put_lists(page, r, slip, x);
}

// `no` or `yes`, how many items were compared, and with `yes` the values.
pub(crate) fn put_match(page: &mut Page, rule: &[u8], slip: &[u8])
    ensures { PlacedOn (said_match (side_fields rule.now) (slip_fields slip.now)
        (comparison_on (side_fields rule.now) (slip_fields slip.now))) page.old page.new }
{
    let c = match_rules::texts::compare_texts(rule, slip);
    let m = c.found;
    let n = c.compared as u64;
    if !m.yes {
        page.put_bytes(b"no ");
        return page.put_number(n);
    }
    page.put_bytes(b"yes ");
    page.put_number(n);
    put_values(page, rule, slip, m.filling);
}
