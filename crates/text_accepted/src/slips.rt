// Which slips reading can return. Every other value counts as one with no fields.
ghost use Rattle.std.specs.Prelude.{◌≡◌};
ghost use Rattle.text_accepted.specs.slips.Slips.{accepted_slip};

use text_values::Slip;

// Whether reading can return this slip.
pub fn is_slip(s: Slip) -> bool
    ensures { result ≡ accepted_slip s }
{
    s.n != 0 && crate::has_fields(&s, false)
}
