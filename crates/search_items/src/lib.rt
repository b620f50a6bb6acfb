// Lists of codes as values: the sides of an equation of the search, and what a list variable stands for; substitution into them, their
// equality, and the occurs check.
#![tactic(auto)]

ghost use Rattle.std.specs.Prelude.{◌≡◌, get_or, drop};
ghost use mathlib.Core.List.{[], ◌∷◌, foldl};
ghost use Rattle.math_terms.specs.Seqs.{concat_map};
ghost use Rattle.search_items.specs.Items.{blank_items, items_of, pushed, collect};
ghost use Rattle.search_items.specs.Substitution.{put_code, same_codes, occurs_in};

// A side of a problem has no more codes than a field terms, and a list variable stands for at most one more.
pub const MOST_CODES: usize = base_limits::MOST_TERMS + 1;

// So many codes. Unused places are 0.
// Stays a count beside an array: document 01's blank record has every number in it zero.
#[derive(Clone, Copy)]
pub struct Items {
    pub n: usize,
    pub codes: [u8; MOST_CODES],
}

impl Items {
    // No codes.
    pub fn blank() -> Items
        ensures { result ≡ blank_items }
    {
        Items {
            n: 0,
            codes: [0; MOST_CODES],
        }
    }

    // Puts c behind the codes. A full list stays as it is.
    pub fn push(&mut self, c: u8)
        ensures { self.new ≡ pushed self.old c }
    {
        let n = self.n;
        if n < MOST_CODES {
            self.codes[n] = c;
            self.n = n + 1;
        }
    }

    // The codes in use. A count beyond the array counts for the whole array.
    pub fn used(&self) -> &[u8]
        ensures { result.now ≡ items_of self.now }
    {
        &self.codes[..self.n.min(MOST_CODES)]
    }

    // The first code, or 0.
    pub fn first(&self) -> u8
        ensures { result ≡ get_or (items_of self.now) 0 0 }
    {
        self.used().first().copied().unwrap_or(0)
    }

    // Puts codes behind.
    fn extend(&mut self, codes: &[u8])
        ensures { self.new ≡ foldl pushed self.old codes.now }
    {
        for c in codes {
            self.push(*c);
        }
    }

    // These codes, as far as there is room.
    pub fn of(codes: &[u8]) -> Items
        ensures { result ≡ collect codes.now }
    {
        let mut w = Items::blank();
        w.extend(codes);
        w
    }

    // All but the first.
    pub fn rest(&self) -> &[u8]
        ensures { result.now ≡ drop 1 (items_of self.now) }
    {
        self.used().get(1..).unwrap_or(&[])
    }

    // The codes behind c.
    pub fn behind(c: u8, codes: &[u8]) -> Items
        ensures { result ≡ collect (c ∷ codes.now) }
    {
        let mut y = Items::of(&[c]);
        y.extend(codes);
        y
    }

    // The codes where x is replaced by the codes s.
    pub fn put_in(x: u8, s: &[u8], codes: &[u8]) -> Items
        ensures { result ≡ collect (concat_map (put_code x s.now) codes.now) }
    {
        let mut y = Items::blank();
        for c in codes {
            if *c == x {
                y.extend(s);
            } else {
                y.push(*c);
            }
        }
        y
    }

    // Whether the codes are the same.
    pub fn same(&self, v: &Items) -> bool
        ensures { result ≡ same_codes (items_of self.now) (items_of v.now) }
    {
        self.used() == v.used()
    }

    // Whether x is one of the codes.
    pub fn occurs(&self, x: u8) -> bool
        ensures { result ≡ occurs_in x (items_of self.now) }
    {
        self.used().contains(&x)
    }
}
