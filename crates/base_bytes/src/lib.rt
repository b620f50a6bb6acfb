// Bytes: the place of the first one that is sought, and a copy.
#![tactic(auto)]

ghost use Rattle.std.specs.Prelude.{◌≡◌, ◌==◌, ◌≤◌, length, min, position};
ghost use Rattle.base_bytes.specs.Bytes.{index_of, copied};

// The place of the first byte b, if there is one.
fn first(text: &[u8], b: u8) -> Option<usize>
    ensures { result ≡ position (λ x. x == b) text.now }
{
    text.iter().position(|x| *x == b)
}

// The place of the first byte b; where there is none, the place behind the text.
pub fn find(text: &[u8], b: u8) -> usize
    ensures value { result ≡ index_of b text.now }
    ensures bound { result ≤ length text.now }
{
    first(text, b).unwrap_or(text.len())
}

// The text's bytes to the front of the other's, as many as have room there; and how many these are.
pub fn copy(text: &[u8], to: &mut [u8]) -> usize
    ensures count { result ≡ min (length text.now) (length to.old) }
    ensures bytes { to.new ≡ copied text.now to.old }
{
    let n = text.len().min(to.len());
    to[..n].copy_from_slice(&text[..n]);
    n
}
