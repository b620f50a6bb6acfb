// The state of the fillings of a pair of rules: by place the code of what its atom stands for, and the join of two atoms.
#![tactic(auto)]

ghost use Rattle.std.specs.Prelude.{◌≡◌, ◌&&◌, eqb};
ghost use Rattle.math_types.specs.Types.{entry};
ghost use Rattle.math_codes.specs.States.{replaced, join_places};
ghost use Rattle.pair_row.specs.Row.{table_in};
ghost use Rattle.pair_state.specs.States.{joined_of};

// Document 01: "Each join of two atoms turns one state of the fillings into the next".
#[derive(Clone, Copy)]
pub struct State {
    pub atoms: [u8; base_limits::PAIR_PLACES],
}

// Each atom stands for itself.
pub fn start(row: &[u8]) -> State
    ensures { result.atoms ≡ (table_in row.now).first }
{
    let mut atoms = [0; base_limits::PAIR_PLACES];
    for (i, a) in atoms.iter_mut().enumerate() {
        *a = pair_row::byte_at(row, i);
    }
    State { atoms }
}

// Whether x is a variable and m, the meet of its type and an atom's, is that atom's type: then its class goes over into that of the atom.
fn goes_over(x: u8, m: u8, k: u8, row: &[u8]) -> bool
    ensures { result ≡ (table_in row.now).variable x && eqb m k }
{
    if m != k {
        return false;
    }
    pair_row::is_variable(row, x)
}

impl State {
    // The state where every place that has x gets w.
    pub fn replace(self, x: u8, w: u8) -> State
        ensures { result.atoms ≡ replaced x w self.atoms }
    {
        let mut st = self;
        for a in &mut st.atoms {
            if *a == x {
                *a = w;
            }
        }
        st
    }

    // The next state, where what the atoms at two places stand for is one, or a clash.
    pub fn join(self, p: usize, q: usize, row: &[u8]) -> Option<State>
        ensures { result ≡ joined_of (join_places entry (table_in row.now) p q self.atoms) }
    {
        let x = pair_row::byte_at(&self.atoms, p);
        let y = pair_row::byte_at(&self.atoms, q);
        if x == y {
            return Some(self);
        }
        // The joined class takes the atom whose type is the meet of both; the other, a variable, goes over. No meet is a clash.
        let j = pair_row::kind_at(row, x);
        let k = pair_row::kind_at(row, y);
        let m = math_types::meet_rank(k, j)?;
        // The class of gone goes over into that of kept: decided first, so that one call does both ways. That of the left atom goes over
        // most often, so its test is the first.
        let (gone, kept) = if goes_over(x, m, k, row) {
            (x, y)
        } else if goes_over(y, m, j, row) {
            (y, x)
        } else {
            return None;
        };
        Some(self.replace(gone, kept))
    }
}
