// The count of the grids that may fit boards, to two. It is made by attempts, each with four times the nodes of the one before, going by where that one failed.
ghost use Rattle.std.specs.Prelude.{List, ℕ, ◌≡◌, Some, IfOk};
ghost use mathlib.Core.Logic.{◌⊎◌};

use super::choosing::choose;
use super::clashes::Clashes;
use boards::state::{Boards, Place};

// How many branches deep crowded houses are looked for, from the second attempt on.
const SHALLOW: u32 = 5;

// A count that was stopped: as many grids were found as are enough, or the nodes are spent. Nothing follows.
#[derive(Drop)]
pub struct Stop;

// What is found of the grids without a place and of those with it; two are too many.
fn joined(found: Option<[u8; 81]>, more: Option<[u8; 81]>) -> Result<Option<[u8; 81]>, Stop>
    ensures { IfOk result (λ only.
        (b : List ℕ) → (found ≡ Some b) ⊎ (more ≡ Some b) → only ≡ Some b) }
{
    match more {
        None => Ok(found),
        Some(_) => match found {
            None => Ok(more),
            Some(_) => Err(Stop),
        },
    }
}

// What a count works with: the nodes that are left to it, whether one grid more is enough to stop it, the grid that was found last, if any was, the clashes
// so far, and the number of the attempt.
#[derive(Drop)]
pub struct Count {
    nodes: u64,
    enough: bool,
    guess: [u8; 81],
    clashes: Clashes,
    attempt: u32,
}

impl Count {
    ghost use Rattle.std.specs.Prelude.{◌↔◌, ◌≤◌, replicate, IsTrue};
    ghost use Rattle.boards.specs.Boards.{Has, Only};

    // With no grid found.
    pub fn new() -> Count
        ensures { result.guess ≡ replicate 81 0 }
    {
        Count {
            nodes: 0,
            enough: false,
            guess: [0; 81],
            clashes: Clashes::new(),
            attempt: 0,
        }
    }

    // Whether the grid that was found last has the digit in its cell.
    pub fn guesses(&self, place: Place) -> bool
        ensures { IsTrue result ↔ Has self.now.guess place.digit place.band place.cell }
    {
        self.guess[27 * place.band + place.cell as usize] == b'1' + place.digit as u8
    }

    // The only grid that may fit the boards, or none. Crowded houses are looked for so many branches deep as `shallow` says.
    fn count(&mut self, boards: &mut Boards, shallow: u32) -> Result<Option<[u8; 81]>, Stop>
        ensures only { IfOk result (λ only. Only boards.old.words only) }
        ensures falls { self.new.nodes ≤ self.old.nodes }
    {
        let mut found = None;
        while 0 < self.nodes {
            self.nodes -= 1;
            let counts = match boards.settle() {
                Ok(counts) => counts,
                Err(clash) => {
                    self.clashes.add(clash);
                    return Ok(found);
                }
            };
            let Some(place) = choose(boards, &counts, &self.clashes, self.attempt) else {
                let Some(grid) = boards.only() else {
                    return Err(Stop);
                };
                self.guess = grid;
                if self.enough {
                    return Err(Stop);
                }
                self.enough = true;
                return joined(found, Some(grid));
            };
            if 0 < self.attempt && 0 < shallow && boards.is_crowded() {
                return Ok(found);
            }
            let mut with = *boards;
            with.place(place);
            let more = self.count(&mut with, shallow.saturating_sub(1))?;
            found = joined(found, more)?;
            boards.strike(place);
        }
        Err(Stop)
    }

    // The only grid that may fit the boards, or none, by attempts. Where `enough` says so, one grid that is found is enough to stop.
    pub fn attempts(&mut self, boards: &Boards, enough: bool) -> Result<Option<[u8; 81]>, Stop>
        ensures { IfOk result (λ only. Only boards.now.words only) }
    {
        for k in 0..20u32 {
            self.nodes = 1000 << (2 * k);
            self.enough = enough;
            self.attempt = k;
            let mut near = *boards;
            let outcome = self.count(&mut near, SHALLOW);
            if outcome.is_ok() || 0 < self.nodes {
                return outcome;
            }
        }
        Err(Stop)
    }
}
