// The text of what is said of two texts that are to be rules: a refusal, the lines of their overlaps, or how long these are.
ghost use Rattle.std.specs.Prelude.{◌++◌, ◌+◌, ◌-◌, ◌≤◌, length};
ghost use Rattle.base_limits.specs.Limits.{most_list_bytes};
ghost use Rattle.text_grammar.specs.Ascii.{newline};
ghost use Rattle.text_refusals.specs.verdicts.Verdicts.{number_of};
ghost use Rattle.text_write.specs.pieces.Refusals.{number_at};
ghost use Rattle.text_write.specs.pieces.Placed.{PlacedOn};
ghost use Rattle.print_pairs.specs.overlaps.Texts.{said_of, said_in};

use text_refusals::verdicts::Reason;
use text_write::pieces::Page;

fn put_refused(page: &mut Page, words: &[u8], reason: Reason, place: usize)
    ensures { PlacedOn (words.now ++ number_at (number_of reason) place ++ newline) page.old page.new }
{
    print_parts::put_refusal(page, words, reason, place);
    page.put_bytes(b"\n");
}

// What is said of two texts, the left one's refusal before the right one's.
// The list is lent no more than the bytes that it may have, so that the lister itself tells a list that is too long.
fn put_read(page: &mut Page, left: &[u8], right: &[u8])
    requires { page.old.at + most_list_bytes ≤ length page.old.bytes.now }
    ensures placed { PlacedOn (said_of left.now right.now) page.old page.new }
    ensures right_len_bound { length (said_of left.now right.now) ≤ most_list_bytes }
{
    let end = page.at + base_limits::MOST_LIST_BYTES;
    let said = overlap_list::list_texts(left, right, &mut page.bytes[page.at..end]);
    let l = said.left;
    let r = said.right;
    let listed = said.listed;
    if let Err(x) = l {
        return put_refused(page, b"refused left ", x.reason, x.place);
    }
    if let Err(x) = r {
        return put_refused(page, b"refused right ", x.reason, x.place);
    }
    match listed {
        Ok(counts) => page.at += counts.bytes,
        Err(small) => print_parts::put_title(page, b"too long ", small.counts.bytes as u64),
    }
}

// The same on a page with room for the longest list; with less nothing is put.
pub(crate) fn put_texts(page: &mut Page, left: &[u8], right: &[u8])
    ensures placed { PlacedOn (said_in page.old.bytes.now page.old.at left.now right.now) page.old page.new }
    ensures right_len_bound { length (said_in page.old.bytes.now page.old.at left.now right.now) ≤ most_list_bytes }
{
    if page.bytes.len().saturating_sub(page.at) < base_limits::MOST_LIST_BYTES {
        return;
    }
    put_read(page, left, right);
}
