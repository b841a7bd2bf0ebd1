// The complete search: branching on the first open cell, digits rising, so that completions are found in byte order. Each branch has fewer cells open. A
// branch is entered unless it is known to have no completion: boards know it, which all completions fit, or a count of the grids that may fit them.
//
//     find     the search for a grid's completions
//     Found    what it has found: none, one, or the smallest two
#![tactic(auto)]

ghost use Rattle.std.specs.Prelude.{◌≡◌, List, [], ◌∷◌, ℕ, ◌≤◌, ◌<◌, eqb};
ghost use Rattle.completions.specs.Completions.{completions};
ghost use Rattle.exploration.specs.Reports.{Reports};
ghost use Rattle.exploration.specs.Search.{found_of, count_of, first_of, second_of};

use boards::start::start;
use boards::state::{Boards, Place};
use branch_test::BranchTest;
use counting::attempts::{Count, Stop};
use digits::next_digit;
use grid::legal::is_digit;
use solved::is_solved;

mod branch_test;
mod digits;
mod solved;

// What a search has found: no completion, one, or several, of which these are the smallest two in byte order.
#[derive(Drop)]
pub enum Found {
    Nothing,
    One([u8; 81]),
    Several([u8; 81], [u8; 81]),
}

impl Found {
    ghost use Rattle.exploration.specs.Search.{count_of, Adds};

    // Whether two are found, so that no more are looked for.
    fn is_several(&self) -> bool
        ensures { result ≡ eqb (count_of self.now) 2 }
    {
        matches!(self, Found::Several(_, _))
    }

    // One more, which comes after those before.
    #[tactic(auto, using(crate::proofs::Finding::one_first, crate::proofs::Finding::one_second, crate::proofs::Finding::several_first))]
    fn add(&mut self, grid: &[u8; 81])
        ensures { Adds self.old self.new (grid.now ∷ []) }
    {
        match self {
            Found::Nothing => *self = Found::One(*grid),
            Found::One(first) => *self = Found::Several(*first, *grid),
            Found::Several(_, _) => {}
        }
    }
}

// An open cell of a grid, and the digits that a completion may have there, a bit for each.
#[derive(Clone, Copy)]
struct Open {
    cell: usize,
    digits: u32,
}

// What a search works with: what is found so far, the one grid that may complete the grid, if so much is known, and the test of a branch.
#[derive(Drop)]
struct Search {
    found: Found,
    only: Option<[u8; 81]>,
    test: BranchTest,
}

impl Search {
    ghost use Rattle.std.specs.Prelude.{true, IsOk, OnOk};
    ghost use Rattle.exploration.specs.Search.{Adds, Bounds, ClosedBefore, MayHave, Fills};

    // The digits that a completion may have in a cell, a bit for each.
    #[inline]
    fn digits_at(&self, boards: &Boards, cell: usize) -> u32
        requires { cell < 81 }
        ensures { (g : List ℕ) → Bounds self.now.only boards.now.words g → MayHave g cell result }
    {
        match &self.only {
            Some(only) if is_digit(only[cell]) => 1 << (only[cell] - b'1') as u32,
            Some(_) => 0,
            None => boards.digits_at(cell / 27, (cell % 27) as u32),
        }
    }

    // Gives the open cells in which one digit is left this digit, up to the first in which more are left, or none. That is the first open cell then.
    fn fill(&self, grid: &mut [u8; 81], boards: &Boards, from: usize) -> Option<Open>
        requires bounds { Bounds self.now.only boards.now.words grid.old }
        requires closed { (from ≤ 81) × ClosedBefore grid.old from }
        ensures { Fills grid.old grid.new result }
    {
        for cell in from..81 {
            if !is_digit(grid[cell]) {
                let digits = self.digits_at(boards, cell);
                let digit = digits.trailing_zeros();
                if 9 <= digit || digits != 1 << digit {
                    return Some(Open { cell, digits });
                }
                grid[cell] = b'1' + digit as u8;
            }
        }
        None
    }

    // All completions of a grid, after those that are found before: each digit of the first open cell is tried, until two are found. It is an error to
    // enter too many branches that are not tested.
    fn explore(&mut self, grid: &[u8; 81], boards: &Boards, from: usize) -> Result<(), Stop>
        requires bounds { Bounds self.old.only boards.now.words grid.now }
        requires closed { (from ≤ 81) × ClosedBefore grid.now from }
        ensures found { OnOk result (Adds self.old.found self.new.found (completions grid.now)) }
        ensures kept { (self.new.only ≡ self.old.only)
            × (self.new.test.tested ≡ self.old.test.tested) }
        ensures ok { self.old.test.tested ≡ true → IsOk result }
    {
        let mut filled = *grid;
        let Some(Open { cell, digits }) = self.fill(&mut filled, boards, from) else {
            if is_solved(&filled) {
                self.found.add(&filled);
            }
            return Ok(());
        };
        let mut digit = next_digit(digits, 0);
        while digit < 9 {
            let mut branch = filled;
            branch[cell] = b'1' + digit as u8;
            let mut next = *boards;
            let place = Place {
                digit: digit as usize,
                band: cell / 27,
                cell: (cell % 27) as u32,
            };
            if self.test.enters(&mut next, place)? {
                self.explore(&branch, &next, cell + 1)?;
                if self.found.is_several() {
                    return Ok(());
                }
            }
            digit = next_digit(digits, digit + 1);
        }
        Ok(())
    }
}

// The search, from the boards of the grid.
fn completions_found(grid: &[u8; 81]) -> Found
    ensures { result ≡ found_of (completions grid.now) }
{
    let boards = start(grid);
    let mut count = Count::new();
    let only = match count.attempts(&boards, false) {
        Ok(None) => {
            return Found::Nothing;
        }
        Ok(only) => only,
        Err(Stop) => None,
    };
    let mut search = Search {
        found: Found::Nothing,
        only,
        test: BranchTest::new(count),
    };
    if search.explore(grid, &boards, 0).is_err() {
        search.found = Found::Nothing;
        search.test.tested = true;
        let _ = search.explore(grid, &boards, 0);
    }
    search.found
}

/// The legal completions of a grid, as far as the smallest two.
pub fn find(grid: &[u8; 81]) -> Found
    ensures exact { result ≡ found_of (completions grid.now) }
    ensures reports { Reports grid.now (count_of result) (first_of result) (second_of result) }
{
    completions_found(grid)
}
