// Answers: the text that a program prints for one line of its input, into lent bytes.
// The text is put together in room that is known to be enough, piece behind piece, and then given whole or not at all.
#![tactic(auto)]

ghost use Rattle.std.specs.Prelude.{◌≡◌, length};
ghost use Rattle.text_write.specs.Answers.{Writes};
ghost use Rattle.text_grammar.specs.Ascii.{ascii, newline};
ghost use Rattle.text_write.specs.pieces.Placed.{PlacedOn};
ghost use Rattle.print_texts.specs.Texts.{rule_answer, slip_answer, texts_answer};
ghost use Rattle.print_texts.specs.Verdicts.{verdict_text, rule_said};

use text_read::RuleRead;
use text_refusals::verdicts::{Refusal, Verdict};
use text_write::TooSmall;
use text_write::pieces::Page;

// ---- pieces of a page

fn put_newline(page: &mut Page)
    ensures { PlacedOn newline page.old page.new }
{
    page.put_bytes(b"\n");
}

fn put_rule_read(page: &mut Page, read: RuleRead)
    ensures { PlacedOn (rule_said read) page.old page.new }
{
    match read.verdict {
        Ok(()) => text_plain::rules::put_rule(page, read.rule),
        Err(Refusal { reason, place }) => {
            print_parts::put_refusal(page, b"refused ", reason, place)
        }
    }
}

// A slip that is read is not shown: it can be of four times as many terms as a rule.
fn put_slip_verdict(page: &mut Page, verdict: Verdict)
    ensures { PlacedOn (verdict_text verdict (ascii "read")) page.old page.new }
{
    match verdict {
        Ok(()) => page.put_bytes(b"read"),
        Err(Refusal { reason, place }) => {
            print_parts::put_refusal(page, b"refused ", reason, place)
        }
    }
}

fn put_rule_answer(page: &mut Page, line: &[u8])
    ensures { PlacedOn (rule_answer line.now) page.old page.new }
{
    let read = text_read::read_rule(line);
    page.put_bytes(b"rule ");
    put_rule_read(page, read);
    put_newline(page);
}

fn put_slip_answer(page: &mut Page, line: &[u8])
    ensures { PlacedOn (slip_answer line.now) page.old page.new }
{
    let read = text_read::read_slip(line);
    page.put_bytes(b"slip ");
    put_slip_verdict(page, read.verdict);
    put_newline(page);
}

// The longest answer: `rule ` and a rule, and `slip ` and a refusal, which is `refused `, a number of two digits, ` at ` and a place of
// four; each with the line's end.
const LONGEST_ANSWER: usize = 5 + base_limits::LONGEST_RULE + 1 + 5 + (8 + 2 + 4 + 4) + 1;

// The two lines that `texts` prints for a line.
pub fn texts_answer(line: &[u8], out: &mut [u8]) -> Result<usize, TooSmall>
    ensures { Writes (texts_answer line.now) out.old result out.new }
{
    let mut text: [u8; LONGEST_ANSWER] = print_parts::room();
    let mut page = Page {
        bytes: &mut text,
        at: 0,
    };
    put_rule_answer(&mut page, line);
    put_slip_answer(&mut page, line);
    page.give(out)
}
