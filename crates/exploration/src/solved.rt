// The test of a grid with no open cell: whether each house has all nine digits, and so each of them once.
ghost use Rattle.std.specs.Prelude.{◌≡◌, ◌↔◌, ℕ, ◌≤◌, ◌<◌, IsTrue};
ghost use Rattle.grid.specs.Completion.{times, Legal};
ghost use Rattle.exploration.specs.Search.{ClosedBefore};

use grid::house_cell;

// Whether a house has all nine digits.
fn has_each(grid: &[u8; 81], house: usize) -> bool
    requires { ClosedBefore grid.now 81 × (house < 27) }
    ensures { IsTrue result ↔ ((d : ℕ) → d < 9 → 1 ≤ times grid.now house d) }
{
    let mut digits = 0u32;
    for k in 0..9 {
        digits |= 1 << (grid[house_cell(house, k)] - b'1') as u32;
    }
    digits & 511 == 511
}

// Whether a full grid is its own legal completion.
pub fn is_solved(grid: &[u8; 81]) -> bool
    requires { ClosedBefore grid.now 81 }
    ensures { IsTrue result ↔ Legal grid.now grid.now }
{
    for house in 0..27 {
        if !has_each(grid, house) {
            return false;
        }
    }
    true
}
