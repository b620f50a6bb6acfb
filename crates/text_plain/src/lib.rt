// Plain text: the one text of a rule's side, into lent bytes.
// Document 01: "Writing a rule gives its one plain text: no `empty` unless the field has no terms, integers without leading zeros."
// The text is put together in room that is known to be enough, piece behind piece, and then given whole or not at all (refusal 8).
#![tactic(auto)]

ghost use Rattle.std.specs.Prelude.{◌≡◌};
ghost use Rattle.text_grammar.specs.Plain.{field_text, plain};
ghost use Rattle.text_values.specs.Values.{view_field, view_side};
ghost use Rattle.text_accepted.specs.Accepted.{counted_left};
ghost use Rattle.text_write.specs.Answers.{Writes};
ghost use Rattle.text_write.specs.pieces.Placed.{PlacedOn};

pub mod rules; // rules with both sides
pub mod slips; // slips

use text_values::{Fields, RuleSide, Terms};
use text_write::TooSmall;
use text_write::pieces::Page;

// ---- pieces of a page

// The terms with a `:` between them, or `empty`.
fn put_field<const PLACES: usize>(page: &mut Page, f: &Terms<PLACES>)
    ensures { PlacedOn (field_text (view_field f.now)) page.old page.new }
{
    let Some((first, others)) = f.used().split_first() else {
        return page.put_bytes(b"empty");
    };
    page.put_term(*first);
    for t in others {
        page.put_bytes(b":");
        page.put_term(*t);
    }
}

// The fields with a `|` between them, of any value.
pub(crate) fn put_fields<const PLACES: usize>(page: &mut Page, r: &Fields<PLACES>)
    ensures { PlacedOn (plain (view_side r.now)) page.old page.new }
{
    let Some((first, others)) = r.used().split_first() else {
        return;
    };
    put_field(page, first);
    for f in others {
        page.put_bytes(b"|");
        put_field(page, f);
    }
}

// ---- a left side

// A left side's plain text. Document 01: a value that no reading can return "counts there as one with no fields; writing such a
// rule gives no bytes".
pub fn write_side(r: RuleSide, out: &mut [u8]) -> Result<usize, TooSmall>
    ensures { Writes (plain (counted_left r)) out.old result out.new }
{
    if !text_accepted::is_left(r) {
        return Ok(0);
    }
    let mut text = [0; base_limits::LONGEST_SIDE];
    let mut page = Page {
        bytes: &mut text,
        at: 0,
    };
    put_fields(&mut page, &r);
    page.give(out)
}
