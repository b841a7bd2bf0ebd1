// Trials along an order, in passes, under a ceiling. A trial is made on a copy of the state; the negation of a failed literal joins the state
// itself. A trial whose success is known is only counted.
ghost use Rattle.std.specs.Prelude.{◌≡◌, ℕ, ◌<◌, T, get_or, true};
ghost use Rattle.std.specs.Int.Bits.{bit_or};
ghost use Rattle.clauses.specs.Literal.{Literal};
ghost use Rattle.clauses.specs.Clauses.{clauses_of};
ghost use Rattle.closure.specs.Marks.{is_decided};
ghost use Rattle.closure.specs.Job.{passes as passes_along};
ghost use Rattle.propagation.specs.Steps.{Closed};
ghost use Rattle.trials.specs.Known.{Names, PossibleOk};
ghost use Rattle.trials.specs.Steps.{Walking, Tried, Stepped, Walked, end_of, ended_at};

use clauses::{ClauseSet, literal};
use closure::Outcome;
use orders::order::Order;
use propagation::close::close_with;
use worklist::acting::{Clash, State, Worklist};

// Whether a variable's byte names a literal: bytes, so that marks join them by one `|` each.
fn is_named(byte: u8, literal: i16) -> bool
    ensures { result ≡ true → Names byte literal }
{
    if literal < 0 {
        2 <= byte
    } else {
        byte % 2 == 1
    }
}

// What is marked is named too. Both are read by index: of the items that iter_mut lends, an adapter tells nothing.
fn note(known: &mut [u8; 729], marks: &[u8; 729])
    ensures { (p : ℕ) → p < 729 → get_or known.new p 0 ≡ bit_or (get_or known.old p 0) (get_or marks.now p 0) }
{
    for p in 0..729 {
        known[p] |= marks[p];
    }
}

// The end of a job: its outcome, and how many trials were made.
#[derive(Clone, Copy, Debug, PartialEq, Eq)]
pub struct End {
    pub outcome: Outcome,
    pub count: u32,
}

// How far a job has come: its state, what is known to succeed there, and how many trials were made. A contradiction leaves it half closed, so that
// each step asks that it walks.
#[derive(Drop)]
struct Progress<'a> {
    state: State,
    list: &'a mut Worklist,
    known: [u8; 729],
    count: u32,
}

// What the trials of a job go by: the clauses, the order of literals, the ceiling of the trials' number, and literals that are possible throughout.
#[derive(Clone, Copy)]
pub struct Job<'a> {
    pub set: ClauseSet,
    pub order: Order<'a>,
    pub ceiling: u32,
    pub possible: &'a [u8; 729],
}

impl Job<'_> {
    // A trial of a literal, and whether it fails. Where it succeeds, all that it decides is known to succeed; where it fails, the negation joins, and
    // only what is possible is still known to succeed.
    fn attempt(&self, progress: &mut Progress, literal: i16) -> Result<bool, Clash>
        requires { Walking self.now progress.old × Literal literal × (T (is_decided progress.old.state.marks literal) → ⊥) }
        ensures { Tried self.now progress.old literal progress.new result }
    {
        let mut tried = progress.state;
        match close_with(&mut tried, progress.list, self.set, literal) {
            Ok(()) => {
                note(&mut progress.known, &tried.marks);
                Ok(false)
            }
            Err(Clash) => {
                close_with(
                    &mut progress.state,
                    progress.list,
                    self.set,
                    literal::negated(literal),
                )?;
                progress.known = *self.possible;
                Ok(true)
            }
        }
    }

    // The next literal of the order, and whether a trial of it fails.
    fn next(&self, progress: &mut Progress, literal: i16) -> Result<bool, Outcome>
        requires { Walking self.now progress.old × Literal literal }
        ensures { Stepped self.now progress.old literal progress.new result }
    {
        let at = literal::mark_index(literal);
        if progress.state.marks[at] != 0 {
            return Ok(false);
        }
        if progress.count == self.ceiling {
            return Err(Outcome::Stopped);
        }
        progress.count += 1;
        if is_named(progress.known[at], literal) {
            return Ok(false);
        }
        let Ok(failed) = self.attempt(progress, literal) else {
            return Err(Outcome::Contradiction);
        };
        if failed && progress.state.decided == 729 {
            return Err(Outcome::Solved);
        }
        Ok(failed)
    }

    // A pass along the order, and whether a trial fails in it.
    fn walk(&self, progress: &mut Progress) -> Result<bool, Outcome>
        requires { Walking self.now progress.old }
        ensures { Walked self.now progress.old progress.new result }
    {
        let mut failed = false;
        for &literal in self.order.entries {
            failed |= self.next(progress, literal)?;
        }
        Ok(failed)
    }

    // Passes along the order until the job ends: each but the last decides a variable, so 729 are enough.
    fn walk_all(&self, progress: &mut Progress) -> Outcome
        requires { Walking self.now progress.old }
        ensures { ended_at result progress.new.state.marks progress.new.count
            ≡ passes_along (clauses_of self.now.set) self.now.ceiling 729 self.now.order.entries.now progress.old.state.marks progress.old.count }
    {
        for _ in 0..729usize {
            match self.walk(progress) {
                Ok(true) => {}
                Ok(false) => return Outcome::Open,
                Err(outcome) => return outcome,
            }
        }
        Outcome::Open
    }

    // The job from a state on, which it takes as far as it goes: after a contradiction its marks mean nothing.
    pub fn passes(&self, state: &mut State, list: &mut Worklist) -> End
        requires { Closed self.now.set state.old × PossibleOk self.now.set state.old.marks self.now.possible.now }
        ensures { end_of result state.new.marks
            ≡ passes_along (clauses_of self.now.set) self.now.ceiling 729 self.now.order.entries.now state.old.marks 0 }
    {
        let mut progress = Progress {
            state: *state,
            list,
            known: *self.possible,
            count: 0,
        };
        let outcome = self.walk_all(&mut progress);
        *state = progress.state;
        End {
            outcome,
            count: progress.count,
        }
    }
}
