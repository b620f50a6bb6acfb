// Plain text of a rule with both sides, into lent bytes. Document 02: "A rule may go on after its left side with `=>` and a right side".
// The text is put together in room that is known to be enough, piece behind piece, and then given whole or not at all (refusal 8).
ghost use Rattle.std.specs.Prelude.{◌≡◌};
ghost use Rattle.text_grammar.specs.rules.Plain.{plain_both};
ghost use Rattle.text_values.specs.Values.{view_rule};
ghost use Rattle.text_accepted.specs.rules.Rules.{counted_rule};
ghost use Rattle.text_write.specs.Answers.{Writes};
ghost use Rattle.text_write.specs.pieces.Placed.{PlacedOn};

use text_values::Rule;
use text_write::TooSmall;
use text_write::pieces::Page;

// The left side, and `=>` and the right side where there is one, of any value.
pub fn put_rule(page: &mut Page, r: Rule)
    ensures { PlacedOn (plain_both (view_rule r)) page.old page.new }
{
    crate::put_fields(page, &r.left);
    if r.right.n == 0 {
        return;
    }
    page.put_bytes(b"=>");
    crate::put_fields(page, &r.right);
}

// A rule's plain text. Document 01: a value that no reading can return "counts there as one with no fields; writing such a
// rule gives no bytes".
pub fn write_rule(r: Rule, out: &mut [u8]) -> Result<usize, TooSmall>
    ensures { Writes (plain_both (counted_rule r)) out.old result out.new }
{
    if !text_accepted::rules::is_rule(r) {
        return Ok(0);
    }
    let mut text = [0; base_limits::LONGEST_RULE];
    let mut page = Page {
        bytes: &mut text,
        at: 0,
    };
    put_rule(&mut page, r);
    page.give(out)
}
