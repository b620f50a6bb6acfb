// Whether two rules overlap: the choices of the overlap list in their order, up to the first that nothing kills. No line is made, so that
// the answer does not wait for a list that may have 65,536 entries.
ghost use Rattle.std.specs.Prelude.{◌≡◌, ◌≤◌, ◌<◌};
ghost use Rattle.overlap_list.specs.shared.Choices.{any_in, any_of};
ghost use Rattle.overlap_list.specs.shared.Answers.{TextsMeet};

use pair_state::State;
use text_refusals::verdicts::Verdict;

// How two texts are read, and whether the rules that they say overlap.
#[derive(Clone, Copy)]
pub struct TextsOverlap {
    pub left: Verdict,
    pub right: Verdict,
    pub overlap: bool,
}

// The fields from j on: whether the next one has a choice that nothing kills, a yes where every field is chosen.
#[cycle(choose_next_field)]
fn next_field(row: &[u8], fields: u8, j: u8, st: State) -> bool
    requires { j ≤ fields }
    ensures { result ≡ any_in row.now fields j st }
{
    if fields <= j {
        return true;
    }
    choose(row, fields, j, st)
}

// The candidates of field j: whether one leads to a choice of the next fields.
#[cycle(choose_next_field)]
fn choose(row: &[u8], fields: u8, j: u8, st: State) -> bool
    requires { j < fields }
    ensures { result ≡ any_in row.now fields j st }
{
    let f = pair_row::shape_at(row, false, j);
    let g = pair_row::shape_at(row, true, j);
    let s = overlap_entries::span_of(f, g);
    // k more are left behind each
    for k in (0..s.count).rev() {
        let c = crate::candidate_of(s, k + 1);
        if let Some(next) = overlap_entries::join_fields(row, f, g, c.items, st) {
            if next_field(row, fields, j + 1, next) {
                return true;
            }
        }
    }
    false
}

// Every choice from the first field on; none of rules that are apart.
fn any_choice(pair: Option<u8>, row: &[u8]) -> bool
    ensures { result ≡ any_of pair row.now }
{
    match pair {
        None => false,
        Some(n) => next_field(row, n, 0, pair_state::start(row)),
    }
}

// WHETHER THE RULES THAT TWO TEXTS SAY OVERLAP, and how each is read. A text that is refused says the rule with no fields,
// which overlaps none.
pub fn texts_overlap(left: &[u8], right: &[u8]) -> TextsOverlap
    ensures { TextsMeet left.now right.now result }
{
    let mut row = [0u8; pair_row::ROW_BYTES];
    let mut texts = [0u8; pair_row::TEXTS_BYTES];
    let noted = crate::note_texts(left, right, &mut row, &mut texts);
    TextsOverlap {
        left: noted.left,
        right: noted.right,
        overlap: any_choice(noted.pair, &row),
    }
}
