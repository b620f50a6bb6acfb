// Left-linearity: which list variables were met, so that the next one can be judged.
ghost use Rattle.std.specs.Prelude.{◌≡◌};
ghost use Rattle.text_accepted.specs.linearity.Lists.{no_lists, next_field, still_ok, add_list};

// The list variables met so far: whether all of them were left-linear, whether one stands in this field, and their numbers.
#[derive(Clone, Copy)]
pub struct Lists {
    pub ok: bool,
    pub here: bool,
    pub seen: [bool; base_limits::NUMBERS_OF_SIDE],
}

impl Lists {
    pub fn none() -> Lists
        ensures { result ≡ no_lists }
    {
        Lists {
            ok: true,
            here: false,
            seen: [false; base_limits::NUMBERS_OF_SIDE],
        }
    }

    pub fn next_field(self) -> Lists
        ensures { result ≡ next_field self }
    {
        let mut l = self;
        l.here = false;
        l
    }

    // Whether left-linearity still holds where the list variable of number v stands here.
    fn stays_ok(self, v: usize) -> bool
        ensures { result ≡ still_ok self v }
    {
        self.ok && !self.here && (base_limits::NUMBERS_OF_SIDE <= v || !self.seen[v])
    }

    // The list variable of number v stands here. A number over the limit has no place in the array; refusal 5 meets it before 6.
    pub fn add(self, v: usize) -> Lists
        ensures { result ≡ add_list self v }
    {
        let mut seen = self.seen;
        if v < base_limits::NUMBERS_OF_SIDE {
            seen[v] = true;
        }
        Lists {
            ok: self.stays_ok(v),
            here: true,
            seen,
        }
    }
}
