// The boards of a grid: where a given stands, no other digit does, and its own house has it nowhere else.
ghost use Rattle.std.specs.Prelude.{List, ℕ};
ghost use Rattle.grid.specs.Completion.{Legal};
ghost use Rattle.boards.specs.Boards.{Fits};

use super::state::{ALL, Boards, Place};
use grid::legal::is_digit;

// Every digit in every cell; the words that are not used have none.
static EVERYWHERE: [u32; 36] = [
    ALL, ALL, ALL, 0, ALL, ALL, ALL, 0, ALL, ALL, ALL, 0, ALL, ALL, ALL, 0, ALL, ALL, ALL, 0, ALL,
    ALL, ALL, 0, ALL, ALL, ALL, 0, ALL, ALL, ALL, 0, ALL, ALL, ALL, 0,
];

// The boards that all completions of a grid fit. No word has been looked at.
pub fn start(grid: &[u8; 81]) -> Boards
    ensures { (b : List ℕ) → Legal grid.now b → Fits result.words b }
{
    let mut boards = Boards {
        words: EVERYWHERE,
        seen: [u32::MAX; 36],
        open: [ALL, ALL, ALL, 0],
    };
    for j in 0..3 {
        for i in 0..27u32 {
            let byte = grid[27 * j + i as usize];
            if is_digit(byte) {
                let d = (byte - b'1') as usize;
                boards.place(Place {
                    digit: d,
                    band: j,
                    cell: i,
                });
                boards.fix(d, j, 1 << i);
            }
        }
    }
    boards
}
