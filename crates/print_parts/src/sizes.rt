// How much a part of a line asks for: decimal digits, or left open for as much as there is.
ghost use Rattle.std.specs.Prelude.{◌≡◌};
ghost use Rattle.print_parts.specs.sizes.Sizes.{decimal, is_left_open, size_of};

// Decimal digits. The value is tested at each digit, so that it stays small.
fn read_decimal(most: u32, text: &[u8]) -> Option<usize>
    ensures { result ≡ decimal most text.now }
{
    let limit = most as usize;
    let mut n: usize = 0;
    for b in text {
        if !b.is_ascii_digit() {
            return None;
        }
        n = n * 10 + (*b - b'0') as usize;
        if limit < n {
            return None;
        }
    }
    Some(n)
}

// Nothing, or `-`.
fn is_left_open(text: &[u8]) -> bool
    ensures { result ≡ is_left_open text.now }
{
    text.is_empty() || text == b"-".as_slice()
}

// How many records or bytes a part of a line asks for, of at most `most`; none, where it is no size.
pub fn read_size(most: u32, text: &[u8]) -> Option<usize>
    ensures { result ≡ size_of most text.now }
{
    if is_left_open(text) {
        return Some(most as usize);
    }
    read_decimal(most, text)
}
