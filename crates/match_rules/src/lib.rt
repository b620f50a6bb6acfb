// Matching a rule against a slip: yes with the one filling of the rule's variables, or no.
#![tactic(auto)]

ghost use Rattle.std.specs.Prelude.{◌≡◌, ◌≤◌, length};
ghost use Rattle.base_limits.specs.Limits.{most_fields};
ghost use Rattle.match_rules.specs.Tests.{fields_progress, no_values, no_runs, runs_in, runs_all};
ghost use Rattle.match_rules.specs.Answers.{match_of, no_match, comparison, no_comparison, found_by};
ghost use Rattle.text_accepted.specs.Accepted.{counted_left};
ghost use Rattle.text_accepted.specs.rules.Rules.{counted_rule};
ghost use Rattle.text_accepted.specs.slips.Slips.{counted_slip};

pub mod texts; // texts that were just read

use match_fields::Progress;
use match_fields::bindings::{Filling, Run, Values};
use text_values::{Field, Form, Rule, RuleSide, Slip, SlipField, Term};

// Document 01 gives a no the blank filling, so a match is not an Option of one.
#[derive(Clone, Copy)]
pub struct Match {
    pub yes: bool,
    pub filling: Filling,
}

// A match, and how many of the slip's items were compared until it was known.
#[derive(Clone, Copy)]
pub struct Comparison {
    pub found: Match,
    pub compared: usize,
}

pub(crate) fn no_values() -> Values
    ensures { result ≡ no_values }
{
    let t = text_values::blank_term();
    Values {
        known: [false; base_limits::ATOM_PLACES],
        terms: [t; base_limits::ATOM_PLACES],
    }
}

// As many fields of the slip as of the rule, one after the other, up to the first test that fails.
fn match_fields(fs: &[Field], ws: &[SlipField]) -> Progress
    requires { (length fs.now ≤ most_fields) × (length ws.now ≡ length fs.now) }
    ensures { result ≡ fields_progress fs.now ws.now no_values }
{
    let mut v = no_values();
    let mut compared: usize = 0;
    for (f, w) in fs.iter().zip(ws) {
        let p = match_fields::match_field(*f, *w, v);
        compared += p.compared;
        let Ok(values) = p.tested else {
            return Progress {
                tested: p.tested,
                compared,
            };
        };
        v = values;
    }
    Progress {
        tested: Ok(v),
        compared,
    }
}

// The run of one field's list variable. There is at most one: it takes the items that the other terms leave.
pub(crate) fn run_field(j: usize, f: Field, w: SlipField, runs: &mut [Run])
    ensures { runs.new ≡ runs_in j f w runs.old }
{
    let terms = &f.terms[..f.n.min(base_limits::MOST_TERMS)];
    let items = w.n.min(base_limits::MOST_ITEMS);
    let count = (items + 1).saturating_sub(terms.len());
    for (i, t) in terms.iter().enumerate() {
        match t.form {
            Form::Var(k, n) if math_types::is_list(k) => {
                let place = usize::from(n);
                if place < runs.len() {
                    runs[place] = Run {
                        field: j,
                        start: i,
                        count,
                    };
                }
            }
            _ => {}
        }
    }
}

#[tactic(auto, using(crate::proofs::Walks::runs_end))]
fn run_fields(fs: &[Field], ws: &[SlipField], runs: &mut [Run])
    ensures { runs.new ≡ runs_all 0 fs.now ws.now runs.old }
{
    for (j, (f, w)) in fs.iter().zip(ws).enumerate() {
        run_field(j, *f, *w, runs);
    }
}

// No list variable's run.
pub(crate) fn no_runs() -> [Run; base_limits::NUMBERS_OF_SIDE]
    ensures { result ≡ no_runs }
{
    let r = Run {
        field: 0,
        start: 0,
        count: 0,
    };
    [r; base_limits::NUMBERS_OF_SIDE]
}

// No, with the blank filling.
pub(crate) fn no_match() -> Match
    ensures { result ≡ no_match }
{
    Match {
        yes: false,
        filling: Filling {
            values: no_values(),
            runs: no_runs(),
        },
    }
}

// No, and nothing was compared.
pub(crate) fn no_comparison() -> Comparison
    ensures { result ≡ no_comparison }
{
    Comparison {
        found: no_match(),
        compared: 0,
    }
}

// What the tests come to: no, or yes with the runs of the list variables too.
fn found_by(fs: &[Field], ws: &[SlipField], tested: Result<Values, Values>) -> Match
    ensures { result ≡ found_by fs.now ws.now tested }
{
    let Ok(values) = tested else {
        return no_match();
    };
    let mut runs = no_runs();
    run_fields(fs, ws, &mut runs);
    Match {
        yes: true,
        filling: Filling { values, runs },
    }
}

// Whether this left side matches the slip, with which filling, and how many of the slip's items were compared. What no reading returns
// has no fields, and matches nothing.
#[tactic(auto, using(crate::proofs::Accept::compared_sides))]
pub(crate) fn compare_side(rule: RuleSide, slip: Slip) -> Comparison
    ensures { result ≡ comparison (counted_left rule) (counted_slip slip) }
{
    if !text_accepted::is_left(rule) || !text_accepted::slips::is_slip(slip) || slip.n != rule.n {
        return no_comparison();
    }
    let fs = &rule.fields[..rule.n];
    let ws = &slip.fields[..slip.n];
    let p = match_fields(fs, ws);
    Comparison {
        found: found_by(fs, ws, p.tested),
        compared: p.compared,
    }
}

// The same of a rule: its left side is compared. A rule whose right side no reading returns has no fields either.
pub fn compare_rule(rule: Rule, slip: Slip) -> Comparison
    ensures { result ≡ comparison (counted_rule rule).0 (counted_slip slip) }
{
    compare_side(text_accepted::rules::left_of(rule), slip)
}

// Whether this left side matches the slip, and with which filling.
pub fn match_side(rule: RuleSide, slip: Slip) -> Match
    ensures { result ≡ match_of (counted_left rule) (counted_slip slip) }
{
    compare_side(rule, slip).found
}

// Whether the rule matches the slip, and with which filling.
pub fn match_rule(rule: Rule, slip: Slip) -> Match
    ensures { result ≡ match_of (counted_rule rule).0 (counted_slip slip) }
{
    compare_rule(rule, slip).found
}
