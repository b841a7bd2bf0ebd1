// Marks with a sum for each nine-literal clause, and a list of exactly the clauses that may act: nine-literal clauses from its front, and from 325 on
// two-literal ones, pairs, with the place that each would strike beside it. A place that is decided changes the sums of the clauses that it is in. One
// that becomes false lists those that come to act; one that becomes true takes its own off, and lists its pairs, and these act at once, so that
// between two steps none is left.
ghost use Rattle.std.specs.Prelude.{◌≡◌, ◌+◌, ◌*◌, ◌≤◌, ◌<◌, length, set as update};
ghost use Rattle.closure.specs.Marks.{decided as decisions, IsMarks};
ghost use Rattle.clauses.specs.declared.ClauseSet.TheVariants.{Extended};
ghost use Rattle.groups.specs.Groups.{number_of, first_pair, IsRun};
ghost use Rattle.worklist.specs.Sums.{SumsOk};

use clauses::ClauseSet;
use groups::{Kind, nines_of, pair_table, slot_of};

// A contradiction.
#[derive(Clone, Copy)]
pub struct Clash;

// The list of clauses that may act, and how many nine-literal ones are on it. It is lent for the closures' work alone: what it held before means
// nothing to them. Its memory is fixed, since the library has no heap.
#[derive(Drop)]
pub struct Worklist {
    numbers: [u16; 361],
    listed: usize,
    ghost fits: { listed ≤ 324 },
}

impl Worklist {
    ghost use Rattle.worklist.specs.Acting.{Last, Lists, On, Settled};

    // With nothing on it.
    pub fn new() -> Worklist
        ensures { result.listed ≡ 0 }
    {
        Worklist {
            numbers: [0; 361],
            listed: 0,
        }
    }

    // Takes everything off the list.
    pub fn clear(&mut self)
        ensures { (self.new.listed ≡ 0) × (length self.new.numbers ≡ 361) }
    {
        self.listed = 0;
    }

    // The clause that was listed last.
    pub fn last(&self) -> Option<u16>
        ensures { Last self.now result }
    {
        if self.listed == 0 {
            None
        } else {
            Some(self.numbers[self.listed - 1])
        }
    }

    // Takes off the clauses that have a true place; a contradiction where one that stays has no place left.
    fn settle(&mut self, sums: &[u16; 324]) -> Result<(), Clash>
        requires { Lists Extended (On self.old) self.old.numbers self.old.listed × (length self.old.numbers ≡ 361) }
        ensures { Settled sums.now self.old self.new result }
    {
        let mut n = 0;
        let mut clash = false;
        for i in 0..self.listed {
            let clause = self.numbers[i];
            let sum = sums[slot_of(clause)];
            self.numbers[n] = clause;
            // It is counted only where it may act, with no branch.
            n = if sum < 2048 { n + 1 } else { n };
            clash |= sum == 0;
        }
        self.listed = n;
        if clash { Err(Clash) } else { Ok(()) }
    }
}

// The places that the pairs of the list would strike, each beside its pair and not with it, since the list has clause numbers alone. Fixed memory, as
// the list's.
#[derive(Drop)]
struct Targets {
    places: [u16; 36],
    count: usize,
}

impl Targets {
    ghost use Rattle.worklist.specs.Acting.{RunListed, ListedTo};

    // The pairs of p with places of its group of that kind, from one place on and before another: they are written behind those that are listed,
    // and stay where they may act.
    #[tactic(auto, using(groups::proofs::Pairs::row_most, groups::proofs::Pairs::number_small, groups::proofs::Slots::place_small))]
    fn list_run(
        &mut self,
        numbers: &mut [u16; 361],
        marks: &[u8; 729],
        kind: Kind,
        p: usize,
        from: usize,
        to: usize,
    )
        requires { IsRun (number_of kind) from to × (p < 729) × (self.old.count ≤ 9 * number_of kind + from) }
        ensures { RunListed marks.now kind p from to numbers.old self.old numbers.new self.new }
    {
        let line = kind.line_of(p);
        let row = kind.row_at(p);
        let first = kind.first_number(p, from / 3);
        let table = pair_table();
        let mut n = self.count;
        for k in from..to {
            let q = line.place(k);
            let number = first + usize::from(table[row + k]);
            numbers[325 + n] = number as u16;
            self.places[n] = q as u16;
            // It is counted only where it may act, with no branch.
            n = if marks[q] == 0 { n + 1 } else { n };
        }
        self.count = n;
    }

    // All pairs of p that may act, where none is listed yet.
    fn list_pairs(&mut self, numbers: &mut [u16; 361], marks: &[u8; 729], set: ClauseSet, p: usize)
        requires { (self.old.count ≡ 0) × (p < 729) }
        ensures { ListedTo marks.now (first_pair set) 3 p 9 numbers.old numbers.new self.new }
    {
        match set {
            ClauseSet::Minimal => {}
            ClauseSet::Extended => self.list_run(numbers, marks, Kind::Cell, p, 0, 9),
        }
        self.list_run(numbers, marks, Kind::Column, p, 0, 9);
        self.list_run(numbers, marks, Kind::Row, p, 0, 9);
        self.list_run(numbers, marks, Kind::Box, p, 0, 3);
        self.list_run(numbers, marks, Kind::Box, p, 3, 6);
        self.list_run(numbers, marks, Kind::Box, p, 6, 9);
    }
}

// A mark for each variable, 0 undecided, 1 true, 2 false, the sum of each nine-literal clause, and how many variables are decided. Marks are bytes,
// so that one `|` joins them to what is known. A contradiction leaves a state half closed, so that `Closed` is asked of it where it is needed, and is no
// invariant. List and clause set stay beside it and not in it: a trial copies the state alone, and the list is lent to all of a job. Places are plain
// numbers, as they are computed.
#[derive(Clone, Copy)]
pub struct State {
    pub marks: [u8; 729],
    pub sums: [u16; 324],
    pub decided: usize,
    pub ghost counted: { decided ≡ decisions marks },
}

impl State {
    ghost use Rattle.worklist.specs.Acting.{Ready, Becomes, Struck, Undecided, PairsReady, True, Struckable, Strikes, StepsTo};

    // An undecided place becomes true: it weighs more.
    #[tactic(auto, using(groups::proofs::Slots::slot_below))]
    #[inline]
    fn raise(&mut self, set: ClauseSet, p: usize)
        requires { IsMarks self.old.marks × SumsOk set self.old.marks self.old.sums × Undecided self.old.marks p }
        ensures { Becomes self.old self.new p 1 (SumsOk set self.new.marks self.new.sums) }
    {
        for &kind in nines_of(set) {
            self.sums[kind.slot_at(p)] += 1024;
        }
        self.marks[p] = 1;
        self.decided += 1;
    }

    // An undecided place becomes false: it weighs nothing. Each clause that it is in is written to the list, and stays where one place of it comes to be
    // left. One that has no place left is on the list already.
    #[tactic(auto, using(groups::proofs::Slots::slot_below))]
    #[inline]
    pub fn deny(&mut self, list: &mut Worklist, set: ClauseSet, p: usize)
        requires { Ready set self.old list.old × Undecided self.old.marks p }
        ensures { Becomes self.old self.new p 2 (Ready set self.new list.new) }
    {
        let weight = 1024 + p as u16;
        let mut n = list.listed;
        for &kind in nines_of(set) {
            let slot = kind.slot_at(p);
            let sum = self.sums[slot] - weight;
            self.sums[slot] = sum;
            list.numbers[n] = kind.clause_at(p);
            // It is counted only where one place comes to be left, with no branch.
            n = if 1024 <= sum && sum < 2048 { n + 1 } else { n };
        }
        list.listed = n;
        self.marks[p] = 2;
        self.decided += 1;
    }

    // A place becomes false, if it is not.
    fn strike(&mut self, list: &mut Worklist, set: ClauseSet, q: usize)
        requires { Ready set self.old list.old × (q < 729) × (True self.old.marks q → ⊥) }
        ensures { Strikes set (λ x. x ≡ q) self.old.marks self.new list.new }
    {
        if self.marks[q] == 0 {
            self.deny(list, set, q);
        }
    }

    // All pairs that are listed act, the last one first: the place beside each becomes false. They are counted: of a reversed iterator over a slice a
    // loop knows only what it has yielded.
    fn strike_all(&mut self, list: &mut Worklist, set: ClauseSet, targets: &Targets)
        requires { Ready set self.old list.old × PairsReady set self.old.marks list.old.numbers targets.now }
        ensures { Strikes set (Struckable targets.now) self.old.marks self.new list.new }
    {
        for i in (0..targets.count).rev() {
            self.strike(list, set, usize::from(targets.places[i]));
        }
    }

    // An undecided place becomes true, and its pairs strike the others of its groups; or a clause of the list has no place left, a contradiction.
    pub fn affirm(&mut self, list: &mut Worklist, set: ClauseSet, p: usize) -> Result<(), Clash>
        requires { Ready set self.old list.old × Struck set self.old.marks × Undecided self.old.marks p }
        ensures { StepsTo set self.old (update self.old.marks p 1) self.new list.new result }
    {
        self.raise(set, p);
        list.settle(&self.sums)?;
        let mut targets = Targets {
            places: [0; 36],
            count: 0,
        };
        targets.list_pairs(&mut list.numbers, &self.marks, set, p);
        self.strike_all(list, set, &targets);
        Ok(())
    }
}
