// The counts of a list, which an ask returns, and what a commit answers by them, whatever list it is.
#![tactic(auto)]

ghost use Rattle.std.specs.Prelude.{◌≡◌};
ghost use Rattle.overlap_counts.specs.Answers.{told, commit_told};

// How many lines a list has, and how many bytes they have.
#[derive(Clone, Copy, PartialEq, Eq)]
pub struct Counts {
    pub entries: usize,
    pub bytes: usize,
}

// A list that the lent bytes have no room for, by its counts: none of its lines is written.
#[derive(Clone, Copy, PartialEq, Eq)]
pub struct NoRoom {
    pub counts: Counts,
}

// Why a commit writes nothing. `told` of specs/Answers has the documents' number and values of each.
#[derive(Clone, Copy, PartialEq, Eq)]
pub enum CommitRefusal {
    // the lines need more bytes than are lent
    NoRoom(Counts),
    // the counts are not those of the list
    Stale,
}

// What is answered to a commit with the counts `asked`, where the list has these counts and so many bytes are lent.
pub fn answer_of(asked: Counts, counts: Counts, room: usize) -> Result<Counts, CommitRefusal>
    ensures { told result ≡ commit_told asked counts room }
{
    if asked != counts {
        return Err(CommitRefusal::Stale);
    }
    if room < counts.bytes {
        return Err(CommitRefusal::NoRoom(counts));
    }
    Ok(counts)
}
