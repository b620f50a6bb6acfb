// The search for one field pair, over a row of problem records that the caller lends.
#![tactic(auto)]

ghost use Rattle.std.specs.Prelude.{◌≡◌, ℕ, false, length, set, get_or};
ghost use Rattle.search_problems.specs.Values.{blank_problem};
ghost use Rattle.search_steps.specs.Row.{blanks};
ghost use Rattle.search_steps.specs.Machine.{conf, next, after, Reaches, from_root};
ghost use Rattle.search_row.specs.Answers.{Searches, reported, Enough, Done};

pub mod own; // the search over a row of its own

use search_problems::Problem;
use search_steps::turns::State;
use text_values::Field;

// How many lines were found, and how many bytes they have.
#[derive(Clone, Copy)]
pub struct Found {
    pub lines: usize,
    pub bytes: usize,
}

// Why no line was written.
#[derive(Clone, Copy)]
pub enum SearchRefusal {
    // the output has fewer bytes than the lines that were found
    TooSmall(Found),
    // the row has too few records
    Full,
}

// The answer of a search. `told` of specs/Answers has document 01's number and values of each.
pub type Searched = Result<Found, SearchRefusal>;

// ---- the row

// Puts a problem into a place of the row, where it has that place.
fn put(row: &mut [Problem], i: usize, p: Problem)
    ensures { row.new ≡ set row.old i p }
{
    if i < row.len() {
        row[i] = p;
    }
}

// The problem in a place of the row; the blank where it has no such place.
fn take(row: &[Problem], i: usize) -> Problem
    ensures { result ≡ get_or row.now i blank_problem }
{
    match row.get(i) {
        Some(p) => *p,
        None => Problem::blank(),
    }
}

// Every record is made blank.
fn blank(row: &mut [Problem])
    ensures { row.new ≡ blanks (length row.old) }
{
    row.fill(Problem::blank());
}

// One turn: a record is read, and written.
fn step(row: &mut [Problem], out: &mut [u8], s: &mut State)
    ensures { conf s.new row.new out.new ≡ next (conf s.old row.old out.old) }
{
    let at = s.at;
    let p = take(row, at);
    let q = search_steps::advance(s, &p, out);
    put(row, at, q);
}

// Turns until the machine is not busy, for which `turns` turns are enough.
fn run(row: &mut [Problem], out: &mut [u8], s: &mut State)
    ghost turns: { ℕ }
    requires { (after turns (conf s.old row.old out.old)).state.busy ≡ false }
    ensures { Reaches (conf s.old row.old out.old) (conf s.new row.new out.new) }
{
    // Stays a `while`: it counts no index, a turn tells whether another one follows.
    while s.busy {
        step(row, out, s);
    }
}

// The search from the problem that the state holds, which is put into the first place: `turns` turns are enough for it.
fn from_root(row: &mut [Problem], out: &mut [u8], s: &mut State)
    ghost turns: { ℕ }
    requires { (after turns (from_root (conf s.old row.old out.old))).state.busy ≡ false }
    ensures { Reaches (from_root (conf s.old row.old out.old)) (conf s.new row.new out.new) }
{
    put(row, 0, s.held);
    run(row, out, s);
}

// ---- the search

// The answer, of the state that counting ended in and the room of the output.
fn report(t: &State, room: usize) -> Searched
    ensures { result ≡ reported t.now room }
{
    if t.refused {
        return Err(SearchRefusal::Full);
    }
    let found = Found {
        lines: t.lines,
        bytes: t.bytes,
    };
    if t.bytes <= room {
        Ok(found)
    } else {
        Err(SearchRefusal::TooSmall(found))
    }
}

// The two runs of the search, for each of which `turns` turns are enough, and the row made blank.
fn run_twice(left: Field, right: Field, row: &mut [Problem], out: &mut [u8]) -> Searched
    ghost turns: { ℕ }
    requires { Enough left right row.old out.old turns }
    ensures { Done left right row.old out.old result row.new out.new }
{
    let room = out.len();
    let s = search_steps::starts::begin(left, right, row.len());
    let mut t = s;
    from_root(row, out, &mut t);
    let mut v = search_steps::starts::again(&s, &t, room);
    from_root(row, out, &mut v);
    blank(row);
    report(&t, room)
}

// THE SEARCH for one field pair: once to count its lines, and once more to write them where the output has room.
// The row is blank afterwards.
pub fn search(left: Field, right: Field, row: &mut [Problem], out: &mut [u8]) -> Searched
    ensures { Searches left right row.old out.old result row.new out.new }
{
    run_twice(left, right, row, out)
}
