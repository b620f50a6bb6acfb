// The search over a row of its own, as the program runs it.
ghost use Rattle.std.specs.Prelude.{min};
ghost use Rattle.search_row.specs.own.Sizes.{most_records};
ghost use Rattle.search_steps.specs.Row.{blanks};
ghost use Rattle.search_row.specs.Answers.{Searches};

use crate::Searched;
use search_problems::Problem;
use text_values::Field;

// How many records the row has.
pub const MOST_RECORDS: usize = 640;

// The search over a row of its own: the first `room` of its records.
pub fn search_in(left: Field, right: Field, room: usize, out: &mut [u8]) -> Searched
    ensures { Searches left right (blanks (min room most_records)) out.old result (blanks (min room most_records))
        out.new }
{
    let mut row = [Problem::blank(); MOST_RECORDS];
    let n = room.min(MOST_RECORDS);
    crate::search(left, right, &mut row[..n], out)
}
