// Reading a rule and a slip: the grammar first, then one pass over each side that meets every other refusal of one side, then refusal 10,
// then the value.
#![tactic(auto)]

ghost use Rattle.std.specs.Prelude.{◌≡◌, ◌≤◌, length};
ghost use Rattle.base_limits.specs.Limits.{most_rule_bytes, most_slip_bytes};
ghost use Rattle.text_grammar.specs.Read.{read_slip};
ghost use Rattle.text_grammar.specs.rules.Read.{read_rule};
ghost use Rattle.text_refusals.specs.verdicts.Verdicts.{verdict_of, Accepted};
ghost use Rattle.text_scan.specs.split.Splits.{split_of};
ghost use Rattle.text_scan.specs.declared.split.Split.TheVariants.{Two};
ghost use Rattle.text_read.specs.Answers.{rule_read, ReadsRule, ReadsSlip, JudgesLeft};
ghost use Rattle.text_read.specs.Sides.{right_of, unknown_of, PlacedIn, FoundIn, end_of};

use text_refusals::Sort;
use text_refusals::verdicts::{Reason, Refusal, Verdict};
use text_scan::split::Split;
use text_values::{Rule, Slip};

// Document 01: "A refusal returns its number, its place and the rule with no fields", so the rule stands beside what is said of the text.
#[derive(Clone, Copy)]
pub struct RuleRead {
    pub verdict: Verdict,
    pub rule: Rule,
}

#[derive(Clone, Copy)]
pub struct SlipRead {
    pub verdict: Verdict,
    pub slip: Slip,
}

// How a rule text is read, and how many bytes its left side has. No `Result` of these bytes: overlap_list notes the left side of a text
// that is refused too, as one of no bytes.
#[derive(Clone, Copy)]
pub struct LeftJudged {
    pub verdict: Verdict,
    pub end: usize,
}

// ---- slips

// Document 01's refusals of a slip, in their order. No slip is built.
pub fn judge_slip(text: &[u8]) -> Verdict
    ensures { result ≡ verdict_of (read_slip text.now) }
{
    if base_limits::MOST_SLIP_BYTES < text.len() {
        return Err(Refusal {
            reason: Reason::Long,
            place: base_limits::MOST_SLIP_BYTES,
        });
    }
    match text_scan::grammar_place(text) {
        Some(place) => Err(Refusal {
            reason: Reason::Grammar,
            place,
        }),
        None => text_passes::survey(text, Sort::Slip).verdict,
    }
}

// Reads a slip: the slip, or why and where the text is refused with the slip that has no fields.
pub fn read_slip(text: &[u8]) -> SlipRead
    ensures { ReadsSlip text.now result }
{
    let verdict = judge_slip(text);
    match verdict {
        Ok(()) => SlipRead {
            verdict,
            slip: text_passes::fields_in(text),
        },
        Err(_) => SlipRead {
            verdict,
            slip: text_values::no_fields(),
        },
    }
}

// ---- rules

// What the right side's survey says of the whole text: its list variables may recur and share a field, and it begins at place d.
fn right_verdict(v: Verdict, d: usize) -> Verdict
    requires { (d ≤ most_slip_bytes) × PlacedIn most_slip_bytes v }
    ensures { result ≡ right_of d v }
{
    match v {
        Err(x) if x.reason != Reason::Linear => Err(Refusal {
            reason: x.reason,
            place: d + x.place,
        }),
        _ => Ok(()),
    }
}

// Refusal 10: the first variable of the right side, which begins at place d, that the left side lacks.
fn unknown_verdict(f: Option<usize>, d: usize) -> Verdict
    requires { (d ≤ most_slip_bytes) × FoundIn most_slip_bytes f }
    ensures { result ≡ unknown_of d f }
{
    match f {
        Some(q) => Err(Refusal {
            reason: Reason::Unknown,
            place: d + q,
        }),
        None => Ok(()),
    }
}

// The refusals from 3 on of a text with an arrow behind p bytes.
fn judge_two(text: &[u8], p: usize) -> Verdict
    requires { (length text.now ≤ most_rule_bytes) × (split_of text.now ≡ Two p) }
    ensures { result ≡ verdict_of (read_rule text.now) }
{
    let d = p + 2;
    let l = text_passes::survey(&text[..p], Sort::Rule);
    let r = text_passes::survey(&text[d..], Sort::Rule);
    text_refusals::verdicts::first(l.verdict, right_verdict(r.verdict, d))?;
    let side = text_passes::fields_in(&text[..p]);
    unknown_verdict(text_passes::unknown_in(&text[d..], side), d)
}

// The documents' refusals of a rule, in their order.
fn judge_rule(text: &[u8], split: Split) -> Verdict
    requires { split ≡ split_of text.now }
    ensures { result ≡ verdict_of (read_rule text.now) }
{
    if base_limits::MOST_RULE_BYTES < text.len() {
        return Err(Refusal {
            reason: Reason::Long,
            place: base_limits::MOST_RULE_BYTES,
        });
    }
    match split {
        Split::Stops(p) => Err(Refusal {
            reason: Reason::Grammar,
            place: p,
        }),
        Split::One => text_passes::survey(text, Sort::Rule).verdict,
        Split::Two(p) => judge_two(text, p),
    }
}

// The rule that a text without refusals says, with an arrow behind p bytes.
fn two_sides(text: &[u8], p: usize) -> Rule
    requires { (split_of text.now ≡ Two p) × (verdict_of (read_rule text.now) ≡ Accepted) }
    ensures { result ≡ (rule_read (read_rule text.now)).rule }
{
    let left = text_passes::fields_in(&text[..p]);
    let right = text_passes::fields_in(&text[p + 2..]);
    Rule { left, right }
}

// The rule that a text without refusals says.
fn rule_of(text: &[u8], split: Split) -> Rule
    requires { (split ≡ split_of text.now) × (verdict_of (read_rule text.now) ≡ Accepted) }
    ensures { result ≡ (rule_read (read_rule text.now)).rule }
{
    match split {
        Split::Stops(_) => text_values::blank_rule(),
        Split::One => Rule {
            left: text_passes::fields_in(text),
            right: text_values::no_fields(),
        },
        Split::Two(p) => two_sides(text, p),
    }
}

// Reads a rule: the rule, or why and where the text is refused with the rule that has no fields.
pub fn read_rule(text: &[u8]) -> RuleRead
    ensures { ReadsRule text.now result }
{
    let split = text_scan::split::split_of(text);
    let verdict = judge_rule(text, split);
    match verdict {
        Ok(()) => RuleRead {
            verdict,
            rule: rule_of(text, split),
        },
        Err(_) => RuleRead {
            verdict,
            rule: text_values::blank_rule(),
        },
    }
}

// How many bytes the left side of a rule text has.
fn left_end(text: &[u8], split: Split) -> usize
    ensures { result ≡ end_of (length text.now) split }
{
    match split {
        Split::Stops(_) => 0,
        Split::One => text.len(),
        Split::Two(p) => p,
    }
}

// How a rule text is read and where its left side ends, without a rule being built. A text that is refused has no left side.
pub fn judge_left(text: &[u8]) -> LeftJudged
    ensures { JudgesLeft text.now result }
{
    let split = text_scan::split::split_of(text);
    let verdict = judge_rule(text, split);
    match verdict {
        Ok(()) => LeftJudged {
            verdict,
            end: left_end(text, split),
        },
        Err(_) => LeftJudged { verdict, end: 0 },
    }
}
