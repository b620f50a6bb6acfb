// Going through the terms of a text: all refusals of one side from 3 on in one pass, the first variable that a left side lacks,
// and the value that a text without refusals says.
// The passes go over a reader, which gives the terms one by one.
#![tactic(auto)]

ghost use Rattle.std.specs.Prelude.{◌≡◌, ◌+◌, ◌≤◌, ◌<◌, length, drop};
ghost use Rattle.base_limits.specs.Limits.{most_slip_bytes};
ghost use Rattle.text_grammar.specs.Walk.{front};
ghost use Rattle.text_values.specs.Values.{view_side};
ghost use Rattle.text_scan.specs.Lexemes.{lexeme_of};
ghost use Rattle.text_passes.specs.Places.{first, spelled, behind};
ghost use Rattle.text_passes.specs.Build.{push_term, add_raw, push_field, turns};
ghost use Rattle.text_passes.specs.Passes.{gone_through, survey_in, unknown_in, fields_in};
ghost use Rattle.text_passes.specs.Fields.{field_count, field_in};
ghost use Rattle.text_passes.specs.Notes.{noted_in};

use base_limits::{MOST_FIELDS, MOST_SLIP_BYTES};
use text_accepted::linearity::Lists;
use text_refusals::{At, Sort, Survey};
use text_scan::{Lexeme, Literal, Spelled};
use text_values::{Fields, RuleSide, Term, Terms};

// A text with the place where it is read. Document 01: "the reading place travels together with the text it reads".
// It gives the terms from there on, each with its place.
#[derive(Drop)]
struct Reader<'a> {
    text: &'a [u8],
    at: At,
    ghost within: { (length text.now ≤ most_slip_bytes) × (at.field ≤ at.place + 1) × (at.index ≤ at.place + 1) },
}

// The number of bytes of a written term.
fn spelled(p: Lexeme) -> usize
    requires { p.size ≤ most_slip_bytes }
    ensures { result ≡ spelled p }
{
    match p.what {
        Spelled::Con(Literal::Int(minus)) => text_grammar::sign_size(minus) + p.size,
        Spelled::Con(Literal::Str) => p.size + 2,
        Spelled::Var(_) => p.size + 1,
        Spelled::Empty => 5,
    }
}

impl<'a> Reader<'a> {
    // Where the term behind the term p stands, which stands here: behind `:` in the same field, behind `|` in the next.
    fn behind(&self, p: Lexeme) -> At
        requires { (self.now.at.place ≤ most_slip_bytes) × (p.size ≤ most_slip_bytes) }
        ensures { result ≡ behind self.now.text.now self.now.at (self.now.at.place + spelled p) }
    {
        let end = self.at.place + spelled(p);
        if self.text.get(end) == Some(&b':') {
            return At {
                place: end + 1,
                index: self.at.index + 1,
                ..self.at
            };
        }
        At {
            place: end + 1,
            field: self.at.field + 1,
            index: 1,
        }
    }
}

impl<'a> Iterator for Reader<'a> {
    ghost use Rattle.std.specs.Iterator.{item_count};
    ghost use Rattle.text_passes.specs.Reader.{tokens_left, Reads};

    type Item = (At, Lexeme);

    ghost next_gives = { Reads };

    ghost remaining = { item_count tokens_left };

    // inlined in each pass, since a call for each term takes longer
    #[inline(always)]
    fn next(&mut self) -> Option<(At, Lexeme)> {
        let at = self.at;
        if self.text.len() <= at.place {
            return None;
        }
        let p = text_scan::lexeme_at(self.text, at.place);
        self.at = self.behind(p);
        Some((at, p))
    }
}

// The terms of a text. One of more bytes than a slip may have, which is no rule either, is not gone through.
fn terms(text: &[u8]) -> Reader<'_>
    ensures text { result.text.now ≡ gone_through text.now }
    ensures at { result.at ≡ first }
{
    let text = if MOST_SLIP_BYTES < text.len() {
        &text[..0]
    } else {
        text
    };
    Reader {
        text,
        at: At {
            place: 0,
            field: 1,
            index: 1,
        },
    }
}

// With the term p behind its others; `empty` adds none.
fn add_term<const PLACES: usize>(f: &mut Terms<PLACES>, text: &[u8], place: usize, p: Lexeme)
    requires { (place < length text.now) × (p ≡ lexeme_of (front (drop place text.now))) }
    ensures { f.new ≡ add_raw f.old (front (drop place text.now)) }
{
    if !matches!(p.what, Spelled::Empty) {
        push_term(f, text_scan::terms::term_at(text, place));
    }
}

// A field over its width is refused: it stores no more.
fn push_term<const PLACES: usize>(f: &mut Terms<PLACES>, t: Term)
    ensures { f.new ≡ push_term f.old t }
{
    if f.n < PLACES {
        f.terms[f.n] = t;
        f.n += 1;
    }
}

// So is a fifth field.
fn push_field<const PLACES: usize>(r: &mut Fields<PLACES>, f: Terms<PLACES>)
    ensures { r.new ≡ push_field r.old f.entry }
{
    if r.n < MOST_FIELDS {
        r.fields[r.n] = f;
        r.n += 1;
    }
}

// Whether a field behind the first begins, so that the one before it is complete.
fn is_turn(a: At) -> bool
    ensures { result ≡ turns a.field a.index }
{
    1 < a.field && a.index == 1
}

// All refusals from 3 on, in one pass over the terms.
pub fn survey(text: &[u8], sort: Sort) -> Survey
    ensures { result ≡ survey_in sort text.now }
{
    let mut s = Survey {
        verdict: Ok(()),
        lists: Lists::none(),
    };
    for (at, p) in terms(text) {
        s = text_refusals::note(s, sort, at, p);
    }
    s
}

// Refusal 10 of a right side's text: the place of its first variable that the side `left` lacks.
pub fn unknown_in(text: &[u8], left: RuleSide) -> Option<usize>
    ensures { result ≡ unknown_in (view_side left) text.now }
{
    for (at, p) in terms(text) {
        if text_refusals::unknown::is_unknown(left, p) {
            return Some(at.place);
        }
    }
    None
}

// The side of a rule, or the slip, that a text without refusals says.
pub fn fields_in<const PLACES: usize>(text: &[u8]) -> Fields<PLACES>
    ensures { result ≡ fields_in PLACES text.now }
{
    let mut all = text_values::no_fields();
    if MOST_SLIP_BYTES < text.len() {
        return all;
    }
    let mut field = text_values::no_terms();
    for (at, p) in terms(text) {
        if is_turn(at) {
            push_field(&mut all, field);
            field = text_values::no_terms();
        }
        add_term(&mut field, text, at.place, p);
    }
    push_field(&mut all, field);
    all
}

// How many fields a text has.
pub fn field_count(text: &[u8]) -> usize
    ensures { result ≡ field_count text.now }
{
    let mut n = 0;
    for (at, _) in terms(text) {
        n = at.field;
    }
    n.min(MOST_FIELDS)
}

// The field of a side or a slip with the number j, from 0. The terms behind it are not gone through.
pub fn field_in<const PLACES: usize>(text: &[u8], j: usize) -> Terms<PLACES>
    ensures { result ≡ field_in PLACES text.now j }
{
    let mut f = text_values::no_terms();
    if MOST_FIELDS <= j {
        return f;
    }
    let mut read = terms(text);
    // Stays a `while`: a `for` reads the first term behind the field, too, which takes longer.
    while read.at.field <= j + 1 {
        let Some((at, p)) = read.next() else {
            break;
        };
        if at.field == j + 1 {
            add_term(&mut f, text, at.place, p);
        }
    }
    f
}

// The terms of a rule's side into the tables of a pair, and how many fields there are.
pub fn note_side(text: &[u8], right: bool, row: &mut [u8], texts: &mut [u8]) -> usize
    ensures value { result ≡ field_count text.now }
    ensures row_after { row.new ≡ (noted_in right text.now row.old texts.old).0 }
    ensures texts_after { texts.new ≡ (noted_in right text.now row.old texts.old).1 }
{
    let mut n = 0;
    for (at, p) in terms(text) {
        n = at.field;
        pair_table::note(row, texts, right, text, at.place, at.field, p);
    }
    n.min(MOST_FIELDS)
}
