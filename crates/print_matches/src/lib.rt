// The text that `matches` prints for one line, into lent bytes: how the line's rule matches its slip.
// It is put together piece behind piece where there is known to be enough room: in the lent bytes, or in room from which it is then given
// whole or not at all.
#![tactic(auto)]

ghost use Rattle.std.specs.Prelude.{◌≤◌, length};
ghost use Rattle.text_write.specs.Answers.{Writes};
ghost use Rattle.text_write.specs.pieces.Placed.{PlacedOn};
ghost use Rattle.print_matches.specs.Matches.{texts_text, line_text, match_answer, longest_answer};
ghost use Rattle.print_matches.specs.Values.{said_slip};

mod answers; // the text of a match

use text_refusals::verdicts::Refusal;
use text_write::TooSmall;
use text_write::pieces::Page;

// ---- pieces of a page

// What is said of a slip against the text of a left side, or of the slip's refusal.
fn put_slip(page: &mut Page, left: &[u8], slip: &[u8])
    ensures { PlacedOn (said_slip left.now slip.now) page.old page.new }
{
    let verdict = text_read::judge_slip(slip);
    match verdict {
        Ok(()) => crate::answers::put_match(page, left, slip),
        Err(Refusal { reason, place }) => {
            print_parts::put_refusal(page, b"refused slip ", reason, place)
        }
    }
}

// What is said of a rule and a slip. The rule's refusal goes before the slip's.
fn put_reads(page: &mut Page, rule: &[u8], slip: &[u8])
    ensures { PlacedOn (texts_text rule.now slip.now) page.old page.new }
{
    let judged = text_read::judge_left(rule);
    let verdict = judged.verdict;
    let end = judged.end;
    match verdict {
        Ok(()) => put_slip(page, &rule[..end], slip),
        Err(Refusal { reason, place }) => {
            print_parts::put_refusal(page, b"refused rule ", reason, place)
        }
    }
}

// What is said of a line.
fn put_line(page: &mut Page, line: &[u8])
    ensures { PlacedOn (line_text line.now) page.old page.new }
{
    let n = line.len();
    if base_limits::SLIP_LINE < n {
        return page.put_bytes(b"line too long");
    }
    let tab = text_write::pieces::tab_place(line);
    let rest = print_parts::behind(tab, n);
    put_reads(page, &line[..tab], &line[rest..]);
}

// A title: `match `, the line's number and its end.
const LONGEST_TITLE: usize = 6 + text_write::LONGEST_NUMBER + 1;
// A value behind a blank, a name of at most three bytes and `=`: a term, or a part of a slip's field.
const LONGEST_VALUES: usize = base_limits::ATOM_PLACES * (5 + base_limits::LONGEST_TERM)
    + base_limits::NUMBERS_OF_SIDE * (5 + base_limits::LONGEST_SLIP_FIELD);
// Enough bytes for any answer: none is longer. Behind the title `yes `, a count of at most two digits, the values, the line's end.
pub const LONGEST_ANSWER: usize = LONGEST_TITLE + 4 + 2 + LONGEST_VALUES + 1;

// The two lines that `matches` prints for line number k.
fn put_answer(page: &mut Page, k: u64, line: &[u8])
    ensures { PlacedOn (match_answer k line.now) page.old page.new }
{
    print_parts::put_title(page, b"match ", k);
    put_line(page, line);
    page.put_bytes(b"\n");
}

// The answer straight into bytes that are enough for any.
fn straight(k: u64, line: &[u8], out: &mut [u8]) -> Result<usize, TooSmall>
    requires { longest_answer ≤ length out.old }
    ensures { Writes (match_answer k line.now) out.old result out.new }
{
    let mut page = Page { bytes: out, at: 0 };
    put_answer(&mut page, k, line);
    Ok(page.at)
}

// The answer by way of room that is enough, for the lent bytes must stay as they are where they are too few for it.
fn by_room(k: u64, line: &[u8], out: &mut [u8]) -> Result<usize, TooSmall>
    ensures { Writes (match_answer k line.now) out.old result out.new }
{
    let mut text: [u8; LONGEST_ANSWER] = print_parts::room();
    let mut page = Page {
        bytes: &mut text,
        at: 0,
    };
    put_answer(&mut page, k, line);
    page.give(out)
}

// The two lines that `matches` prints for line number k. No room is made where the lent bytes are enough for any answer.
pub fn match_answer(k: u64, line: &[u8], out: &mut [u8]) -> Result<usize, TooSmall>
    ensures { Writes (match_answer k line.now) out.old result out.new }
{
    if out.len() < LONGEST_ANSWER {
        return by_room(k, line, out);
    }
    straight(k, line, out)
}
