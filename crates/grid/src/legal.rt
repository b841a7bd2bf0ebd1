// The test of a legal completion.
ghost use Rattle.std.specs.Prelude.{◌≡◌, ◌↔◌, true, not, ◌||◌, ℕ, ◌<◌, eqb, length, get_or, IsTrue, IfOk};
ghost use Rattle.std.specs.Result.{result_err};
ghost use Rattle.grid.specs.Counting.{all};
ghost use Rattle.grid.specs.Grid.{is_digit};
ghost use Rattle.grid.specs.Completion.{times, Legal, is_full, keeps_givens, each_once, is_legal, completion_call};
ghost use Rattle.grid.specs.Refusals.{first_broken, grid_rules};

use super::{Refusal, house_cell, keyed};

// A digit `1` to `9`.
pub fn is_digit(b: u8) -> bool
    ensures { result ≡ is_digit b }
{
    b'1' <= b && b <= b'9'
}

// Whether all 81 cells have a digit.
fn is_full(candidate: &[u8]) -> bool
    ensures { result ≡ is_full candidate.now }
{
    candidate.len() == 81 && candidate.iter().all(|b| is_digit(*b))
}

// Whether a cell keeps its given, if it has one.
fn keeps_given(given: u8, digit: u8) -> bool
    ensures { result ≡ not (is_digit given) || eqb digit given }
{
    !is_digit(given) || digit == given
}

// Whether every given stands in the candidate.
fn keeps_givens(grid: &[u8; 81], candidate: &[u8]) -> bool
    requires { length candidate.now ≡ 81 }
    ensures { result ≡ keeps_givens grid.now candidate.now }
{
    (0..81).all(|cell| keeps_given(grid[cell], candidate[cell]))
}

// How often each digit stands in a house, digit d + 1 at place d. The test has found before that the candidate is full.
fn count_digits(candidate: &[u8], house: usize) -> [u8; 9]
    requires { (is_full candidate.now ≡ true) × (house < 27) }
    ensures { (d : ℕ) → d < 9 → get_or result d 0 ≡ times candidate.now house d }
{
    let mut counts = [0; 9];
    for k in 0..9 {
        let cell = house_cell(house, k);
        let d = (candidate[cell] - b'1') as usize;
        counts[d] += 1;
    }
    counts
}

// Whether each digit stands once in a house.
fn house_once(candidate: &[u8], house: usize) -> bool
    requires { (is_full candidate.now ≡ true) × (house < 27) }
    ensures { result ≡ all 9 (λ d. eqb (times candidate.now house d) 1) }
{
    count_digits(candidate, house)
        .iter()
        .all(|count| *count == 1)
}

// Whether each digit stands once in each house.
fn each_once(candidate: &[u8]) -> bool
    requires { is_full candidate.now ≡ true }
    ensures { result ≡ each_once candidate.now }
{
    (0..27).all(|house| house_once(candidate, house))
}

// Whether the candidate is a legal completion of the grid.
#[tactic(auto, using(crate::proofs::Completion::full_long), unfolding(crate::specs::Completion::is_legal))]
fn is_legal(grid: &[u8; 81], candidate: &[u8]) -> bool
    ensures { result ≡ is_legal grid.now candidate.now }
{
    is_full(candidate) && keeps_givens(grid, candidate) && each_once(candidate)
}

/// Whether the candidate is a legal completion of the grid, where the keyer's check accepts the grid. A candidate of any length is tested: one that is
/// not 81 digits is none.
#[tactic(auto, unfolding(crate::specs::Completion::completion_call))]
pub fn is_completion(grid: &[u8], candidate: &[u8]) -> Result<bool, Refusal>
    ensures exact { result ≡ completion_call grid.now candidate.now }
    ensures refused { result_err result ≡ first_broken (grid_rules grid.now) }
    ensures legal { IfOk result (λ answer. IsTrue answer ↔ Legal grid.now candidate.now) }
{
    let grid = keyed(grid)?;
    Ok(is_legal(grid, candidate))
}
