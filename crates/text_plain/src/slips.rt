// Plain text of a slip, into lent bytes: document 01's "one plain text: no `empty` unless the field has no terms, integers without
// leading zeros".
// The text is put together in room that is known to be enough, piece behind piece, and then given whole or not at all (refusal 8).
ghost use Rattle.std.specs.Prelude.{◌≡◌};
ghost use Rattle.text_grammar.specs.Plain.{plain};
ghost use Rattle.text_values.specs.Values.{view_slip};
ghost use Rattle.text_accepted.specs.slips.Slips.{counted_slip};
ghost use Rattle.text_write.specs.Answers.{Writes};
ghost use Rattle.text_write.specs.pieces.Placed.{PlacedOn};

use text_values::Slip;
use text_write::TooSmall;
use text_write::pieces::Page;

// The fields with a `|` between them, of any value.
pub fn put_slip(page: &mut Page, s: Slip)
    ensures { PlacedOn (plain (view_slip s)) page.old page.new }
{
    crate::put_fields(page, &s);
}

// ---- an accepted slip

// A slip's plain text. Document 01: a value that no reading can return "counts there as one with no fields"; so it has no bytes.
pub fn write_slip(s: Slip, out: &mut [u8]) -> Result<usize, TooSmall>
    ensures { Writes (plain (counted_slip s)) out.old result out.new }
{
    if !text_accepted::slips::is_slip(s) {
        return Ok(0);
    }
    let mut text = [0; base_limits::LONGEST_SLIP];
    let mut page = Page {
        bytes: &mut text,
        at: 0,
    };
    put_slip(&mut page, s);
    let n = page.at.min(base_limits::LONGEST_SLIP);
    // from the room itself, which is seen to lie apart from the lent bytes: so the library asks for no `memmove`
    text_write::pieces::give(&text[..n], out)
}
