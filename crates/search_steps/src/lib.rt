// One turn of the search, with the line of an answer. The row itself is in crate `search_row`.
#![tactic(auto)]

ghost use Rattle.std.specs.Prelude.{◌≡◌, length, if◌then◌else◌};
ghost use Rattle.text_write.specs.pieces.Stored.{store_line};
ghost use Rattle.search_steps.specs.Machine.{answers, line_of, line_place, moved, wrote};

pub mod starts; // the states that the two runs start in
pub mod tables; // the tables of two fields
pub mod turns; // what a turn decides

use crate::turns::State;
use search_problems::Problem;

// Whether the record that is read is an answer.
fn is_answer(s: &State, p: &Problem) -> bool
    ensures { result ≡ answers s.now p.now }
{
    search_rules::RULES <= s.rule && s.count != 0 && !p.open
}

// Where an answer's line goes: behind the lines before it, or, where they are only counted, behind the end.
fn line_place(s: &State, room: usize) -> usize
    ensures { result ≡ line_place s.now room }
{
    if s.writing { s.bytes.min(room) } else { room }
}

// Puts an answer's line into the output, as far as there is room, and returns its size.
fn put_line(s: &State, p: &Problem, out: &mut [u8]) -> usize
    ensures value { result ≡ length (line_of s.now p.now) }
    ensures out_after { out.new ≡ (if s.now.writing then store_line (line_of s.now p.now) s.now.bytes out.old else out.old) }
{
    let at = line_place(s, out.len());
    let [l, r] = p.lists;
    pair_lines::put_answer(
        &s.row,
        &s.texts,
        &p.atoms.atoms,
        l.used(),
        r.used(),
        &mut out[at..],
    )
}

// The same, where there is an answer; no bytes where there is none.
fn note(s: &State, p: &Problem, out: &mut [u8]) -> usize
    ensures { (result ≡ (if answers s.now p.now then length (line_of s.now p.now) else 0)) × (out.new ≡ wrote s.now p.now out.old) }
{
    if !is_answer(s, p) {
        return 0;
    }
    put_line(s, p, out)
}

// All that a turn decides, and an answer's line. Returns the record to be written where p was read.
pub fn advance(s: &mut State, p: &Problem, out: &mut [u8]) -> Problem
    ensures problem { result ≡ (moved s.old p.now).problem }
    ensures state { s.new ≡ (moved s.old p.now).state }
    ensures out_after { out.new ≡ wrote s.old p.now out.old }
{
    let n = note(s, p, out);
    s.decide(p, n)
}
