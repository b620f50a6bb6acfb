// A set of list variables, by their numbers, as the 64 binary digits of a number.
ghost use Rattle.std.specs.Prelude.{◌≡◌};
ghost use Rattle.search_problems.specs.variables.Sets.{with_name, fresh_value, list_variables};

// How many digits the set has.
pub const DIGITS: u8 = 64;

// The set with n too. (A number that has no digit is in no set.)
pub(crate) fn with_name(set: u64, n: u8) -> u64
    ensures { result ≡ with_name set n }
{
    if DIGITS <= n {
        return set;
    }
    set | (1 << n)
}

// The lowest number that is not in the set.
pub(crate) fn fresh(set: u64) -> u8
    ensures { result ≡ fresh_value set }
{
    u64::trailing_zeros(!set) as u8
}

// How many list variables the set has.
pub(crate) fn list_variables(set: u64) -> u32
    ensures { result ≡ list_variables set }
{
    u64::count_ones(set)
}
