// The states that the search's two runs start in: the first counts its lines, the second writes them.
ghost use Rattle.std.specs.Prelude.{◌≡◌, ◌&&◌};
ghost use Rattle.text_accepted.specs.Accepted.{accepted_field};
ghost use Rattle.search_steps.specs.starts.Starts.{begun, again};

use crate::turns::State;
use text_values::Field;

// Whether two fields stand on accepted rules' left sides.
fn are_fields(left: Field, right: Field) -> bool
    ensures { result ≡ accepted_field left && accepted_field right }
{
    text_accepted::is_field(left) && text_accepted::is_field(right)
}

// The state that the search of two fields starts in: it counts.
pub fn begin(left: Field, right: Field, cap: usize) -> State
    ensures { result ≡ begun left right cap }
{
    let on = are_fields(left, right);
    let tables = crate::tables::tables_of(left, right);
    State {
        busy: on && 0 < cap,
        writing: false,
        refused: on && cap == 0,
        rule: search_rules::RULES,
        at: 0,
        head: 0,
        tail: crate::turns::next_place(0, cap),
        count: 1,
        cap,
        lines: 0,
        bytes: 0,
        held: search_problems::root(&tables.row),
        row: tables.row,
        texts: tables.texts,
    }
}

// The state s once more, after the count ended in t: the search writes, where it was not refused and has room.
pub fn again(s: &State, t: &State, room: usize) -> State
    ensures { result ≡ again s.now t.now room }
{
    State {
        busy: !t.refused && t.bytes <= room && s.busy,
        writing: true,
        ..*s
    }
}
