// The text that `solve` prints for one line, into lent bytes: the lines of the search for the line's two fields.
// It is put together piece behind piece in room that is known to be enough, and then given whole or not at all.
#![tactic(auto)]

ghost use Rattle.std.specs.Prelude.{◌≡◌, [], ◌≤◌, length};
ghost use Rattle.search_row.specs.own.Sizes.{most_records};
ghost use Rattle.text_grammar.specs.rules.Read.{read_rule};
ghost use Rattle.text_accepted.specs.Accepted.{counted_field};
ghost use Rattle.text_write.specs.Answers.{Writes};
ghost use Rattle.text_write.specs.pieces.Placed.{PlacedOn};
ghost use Rattle.print_solve.specs.search.Found.{longest_body};
ghost use Rattle.print_solve.specs.Solve.{field_in, line_text, longest_answer, solve_answer};
ghost use Rattle.print_solve.specs.Values.{said_room, said_row, said_sizes, said_right};

mod search; // the text of a search's answer

use text_values::Field;
use text_write::TooSmall;
use text_write::pieces::Page;

// ---- the parts of a line

// How many records and bytes a line may ask for.
const MOST_RECORDS: u32 = search_row::own::MOST_RECORDS as u32;

const MOST_BYTES: u32 = crate::search::MOST_BYTES as u32;
// More terms than a field can have.
const TOO_MANY: usize = base_limits::MOST_TERMS + 1;

// A field that no accepted rule has.
fn no_field() -> Field
    ensures { counted_field result ≡ [] }
{
    let blank = text_values::no_terms();
    let terms = blank.terms;
    Field {
        n: TOO_MANY,
        terms: terms,
    }
}

// The one field of a rule text without right side. A refused text says the rule with no fields.
fn read_field(text: &[u8]) -> Field
    ensures { counted_field result ≡ field_in (read_rule text.now) }
{
    let read = text_read::read_rule(text);
    let rule = read.rule;
    let left = rule.left;
    let right = rule.right;
    if right.n != 0 {
        return no_field();
    }
    if left.n == 1 {
        return left.fields[0];
    }
    no_field()
}

// ---- pieces of a page

// The last part, with a row that was read.
fn put_room(page: &mut Page, left: Field, right: Field, row: usize, room: &[u8])
    requires { row ≤ most_records }
    ensures placed { PlacedOn (said_room left right row room.now) page.old page.new }
    ensures room_len_bound { length (said_room left right row room.now) ≤ longest_body }
{
    match print_parts::sizes::read_size(MOST_BYTES, room) {
        Some(bytes) => crate::search::put_search(page, left, right, row, bytes),
        None => page.put_bytes(b"bad room\n"),
    }
}

// The last two parts.
fn put_row(page: &mut Page, left: Field, right: Field, row: &[u8], room: &[u8])
    ensures placed { PlacedOn (said_row left right row.now room.now) page.old page.new }
    ensures room_len_bound { length (said_row left right row.now room.now) ≤ longest_body }
{
    match print_parts::sizes::read_size(MOST_RECORDS, row) {
        Some(records) => put_room(page, left, right, records, room),
        None => page.put_bytes(b"bad row\n"),
    }
}

// What stands behind both fields.
fn put_sizes(page: &mut Page, left: Field, right: Field, line: &[u8])
    ensures placed { PlacedOn (said_sizes left right line.now) page.old page.new }
    ensures line_len_bound { length (said_sizes left right line.now) ≤ longest_body }
{
    let n = line.len();
    let tab = text_write::pieces::tab_place(line);
    let rest = print_parts::behind(tab, n);
    if text_write::pieces::tab_place(&line[rest..]) < n - rest {
        return page.put_bytes(b"bad line\n");
    }
    put_row(page, left, right, &line[..tab], &line[rest..]);
}

// What stands behind the left field.
fn put_right(page: &mut Page, left: Field, line: &[u8])
    ensures placed { PlacedOn (said_right left line.now) page.old page.new }
    ensures line_len_bound { length (said_right left line.now) ≤ longest_body }
{
    let n = line.len();
    let tab = text_write::pieces::tab_place(line);
    let rest = print_parts::behind(tab, n);
    let right = read_field(&line[..tab]);
    put_sizes(page, left, right, &line[rest..]);
}

// The longest line: two rules, and behind a tab each the longest row, `640`, and room, `131072`.
pub const LONGEST_LINE: usize = base_limits::PAIR_LINE + 1 + 3 + 1 + 6;

// What is said of a line.
fn put_line(page: &mut Page, line: &[u8])
    ensures placed { PlacedOn (line_text line.now) page.old page.new }
    ensures line_len_bound { length (line_text line.now) ≤ longest_body }
{
    let n = line.len();
    if LONGEST_LINE < n {
        return page.put_bytes(b"line too long\n");
    }
    let tab = text_write::pieces::tab_place(line);
    let rest = print_parts::behind(tab, n);
    let left = read_field(&line[..tab]);
    put_right(page, left, &line[rest..]);
}

// A title: `search `, the line's number and its end.
const LONGEST_TITLE: usize = 7 + text_write::LONGEST_NUMBER + 1;
// No answer has more: a title, and behind it what is said of a search.
pub const LONGEST_ANSWER: usize = LONGEST_TITLE + crate::search::LONGEST_BODY;

// The lines that `solve` prints for line number k.
pub fn solve_answer(k: u64, line: &[u8], out: &mut [u8]) -> Result<usize, TooSmall>
    ensures writes { Writes (solve_answer k line.now) out.old result out.new }
    ensures line_len_bound { length (solve_answer k line.now) ≤ longest_answer }
{
    let mut text: [u8; LONGEST_ANSWER] = print_parts::room();
    let mut page = Page {
        bytes: &mut text,
        at: 0,
    };
    print_parts::put_title(&mut page, b"search ", k);
    put_line(&mut page, line);
    page.give(out)
}
