// What a turn of the search makes of its state and of the record that it reads. The row is a ring of records.
ghost use Rattle.std.specs.Prelude.{◌≡◌, ◌<◌};
ghost use Rattle.math_search.specs.Rules.{rule_count};
ghost use Rattle.pair_row.specs.Row.{table_in};
ghost use Rattle.search_problems.specs.Steps.{child_record};
ghost use Rattle.search_steps.specs.turns.Turns.{next_place, aim, worked, first_rule, stopped, taken, head_turn};
ghost use Rattle.search_steps.specs.turns.Turns.{joined, full, rule_turn, decided};

use search_problems::Problem;

// Where the search is. `row`, `texts`: the tables of the two fields.
#[derive(Clone, Copy)]
pub struct State {
    pub busy: bool,
    pub writing: bool,
    pub refused: bool,
    pub rule: usize,
    pub at: usize,
    pub head: usize,
    pub tail: usize,
    pub count: usize,
    pub cap: usize,
    pub lines: usize,
    pub bytes: usize,
    pub held: Problem,
    pub row: [u8; pair_row::ROW_BYTES],
    pub texts: [u8; pair_row::TEXTS_BYTES],
}

// ---- places

// The next place, round the end.
pub(crate) fn next_place(i: usize, cap: usize) -> usize
    ensures { result ≡ next_place i cap }
{
    if i < cap.saturating_sub(1) { i + 1 } else { 0 }
}

// The place that the next turn reads.
fn aim(rule: usize, head: usize, tail: usize) -> usize
    ensures { result ≡ aim rule head tail }
{
    if rule < search_rules::RULES {
        tail
    } else {
        head
    }
}

// ---- a problem that leaves the row

// Whether its children are to be put in.
fn is_worked(p: &Problem, row: &[u8]) -> bool
    ensures { result ≡ worked (table_in row.now) p.now }
{
    p.open && !p.fails(row)
}

// The first rule that gives it a child.
fn first_rule(p: &Problem, row: &[u8]) -> usize
    ensures { result ≡ first_rule (table_in row.now) p.now }
{
    if is_worked(p, row) {
        return p.next_rule(0, row);
    }
    search_rules::RULES
}

impl State {
    // ---- turns where no problem is held

    fn stop(&mut self)
        ensures { self.new ≡ stopped self.old }
    {
        self.busy = false;
    }

    // The problem leaves the row. An answer's line has n bytes.
    fn leave(&mut self, p: &Problem, n: usize)
        ensures { self.new ≡ taken self.old p.now n }
    {
        self.busy = true;
        self.rule = first_rule(p, &self.row);
        self.head = next_place(self.head, self.cap);
        self.at = aim(self.rule, self.head, self.tail);
        self.count = self.count.saturating_sub(1);
        if !p.open {
            self.lines = self.lines.wrapping_add(1);
            self.bytes = self.bytes.wrapping_add(n);
        }
        self.held = *p;
    }

    // Returns the record to be written.
    fn take_head(&mut self, p: &Problem, n: usize) -> Problem
        ensures problem { result ≡ (head_turn self.old p.now n).problem }
        ensures state { self.new ≡ (head_turn self.old p.now n).state }
    {
        if self.count == 0 {
            self.stop();
            return *p;
        }
        self.leave(p, n);
        Problem::blank()
    }

    // ---- turns where a problem is held

    // The child by the next rule, which gives one; else the blank record.
    fn child(&self) -> Problem
        ensures { result ≡ child_record (table_in self.now.row) self.now.held self.now.rule }
    {
        match self.held.child_of(self.rule, &self.row) {
            Some(q) => q,
            None => Problem::blank(),
        }
    }

    // A child was put at the tail.
    fn join(&mut self)
        requires { (self.old.rule < rule_count) × (self.old.count < self.old.cap) }
        ensures { self.new ≡ joined self.old }
    {
        self.busy = true;
        self.rule = self.held.next_rule(self.rule + 1, &self.row);
        self.tail = next_place(self.tail, self.cap);
        self.at = aim(self.rule, self.head, self.tail);
        self.count += 1;
    }

    // The row has no room for a child.
    fn refuse(&mut self)
        ensures { self.new ≡ full self.old }
    {
        self.busy = false;
        self.refused = true;
        self.lines = 0;
        self.bytes = 0;
    }

    // The child by the next rule is put in. Returns the record to be written.
    fn try_rule(&mut self, p: &Problem) -> Problem
        requires { self.old.rule < rule_count }
        ensures problem { result ≡ (rule_turn self.old p.now).problem }
        ensures state { self.new ≡ (rule_turn self.old p.now).state }
    {
        if self.count < self.cap {
            let q = self.child();
            self.join();
            return q;
        }
        self.refuse();
        *p
    }

    // ---- a turn

    // All that a turn decides. An answer's line has n bytes. Returns the record to be written.
    pub(crate) fn decide(&mut self, p: &Problem, n: usize) -> Problem
        ensures problem { result ≡ (decided self.old p.now n).problem }
        ensures state { self.new ≡ (decided self.old p.now n).state }
    {
        if self.rule < search_rules::RULES {
            return self.try_rule(p);
        }
        self.take_head(p, n)
    }
}
