// The text that `carry` prints for one line, into lent bytes: what carrying out the line's rule on its slip answers.
// It is put together piece behind piece in room that is known to be enough, and then given whole or not at all.
#![tactic(auto)]

ghost use Rattle.std.specs.Prelude.{◌≤◌, length};
ghost use Rattle.apply_rules.specs.Answers.{carried_of};
ghost use Rattle.text_write.specs.Answers.{Writes};
ghost use Rattle.text_write.specs.pieces.Placed.{PlacedOn};
ghost use Rattle.print_carry.specs.Carry.{line_text, carry_answer, longest_answer};
ghost use Rattle.print_carry.specs.Values.{said_answer, said_carried, said_slip, said_reads};

use apply_rules::Carry;
use text_read::{RuleRead, SlipRead};
use text_values::{Rule, Slip};
use text_write::TooSmall;
use text_write::pieces::Page;

// ---- pieces of a page

// The words before the slip.
fn put_words(page: &mut Page, answer: Carry)
    ensures { PlacedOn (said_answer answer) page.old page.new }
{
    match answer {
        Carry::Yes => page.put_bytes(b"yes "),
        Carry::No => page.put_bytes(b"no "),
        Carry::TooLong => page.put_bytes(b"refusal 11 "),
    }
}

// What carrying out answers: the words, and the slip that it returns.
fn put_carried(page: &mut Page, rule: Rule, slip: Slip)
    ensures { PlacedOn (said_carried (carried_of rule slip)) page.old page.new }
{
    let c = apply_rules::carry_out(rule, slip);
    put_words(page, c.answer);
    text_plain::slips::put_slip(page, c.slip);
}

// What is said of a slip that was read, or of its refusal.
fn put_slip_read(page: &mut Page, rule: Rule, read: SlipRead)
    ensures { PlacedOn (said_slip rule read) page.old page.new }
{
    match read.verdict {
        Ok(()) => put_carried(page, rule, read.slip),
        Err(x) => print_parts::put_refusal(page, b"refused slip ", x.reason, x.place),
    }
}

// The rule's refusal goes before the slip's.
fn put_reads(page: &mut Page, rule: RuleRead, slip: SlipRead)
    ensures { PlacedOn (said_reads rule slip) page.old page.new }
{
    match rule.verdict {
        Ok(()) => put_slip_read(page, rule.rule, slip),
        Err(x) => print_parts::put_refusal(page, b"refused rule ", x.reason, x.place),
    }
}

// What is said of a line.
fn put_line(page: &mut Page, line: &[u8])
    ensures { PlacedOn (line_text line.now) page.old page.new }
{
    let n = line.len();
    if base_limits::SLIP_LINE < n {
        return page.put_bytes(b"line too long");
    }
    let tab = text_write::pieces::tab_place(line);
    let rest = print_parts::behind(tab, n);
    let rule = text_read::read_rule(&line[..tab]);
    let slip = text_read::read_slip(&line[rest..]);
    put_reads(page, rule, slip);
}

// A title: `carry `, the line's number and its end.
const LONGEST_TITLE: usize = 6 + text_write::LONGEST_NUMBER + 1;
// No answer has more: behind the title `refusal 11 `, a slip, the line's end.
pub const LONGEST_ANSWER: usize = LONGEST_TITLE + (8 + 2 + 1) + base_limits::LONGEST_SLIP + 1;

// The two lines that `carry` prints for line number k.
pub fn carry_answer(k: u64, line: &[u8], out: &mut [u8]) -> Result<usize, TooSmall>
    ensures writes { Writes (carry_answer k line.now) out.old result out.new }
    ensures line_len_bound { length (carry_answer k line.now) ≤ longest_answer }
{
    let mut text: [u8; LONGEST_ANSWER] = print_parts::room();
    let mut page = Page {
        bytes: &mut text,
        at: 0,
    };
    print_parts::put_title(&mut page, b"carry ", k);
    put_line(&mut page, line);
    page.put_bytes(b"\n");
    page.give(out)
}
