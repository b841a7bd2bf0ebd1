// The only grid that may fit, where the boards are those of a full grid.
ghost use Rattle.std.specs.Prelude.{List, ℕ, ◌+◌, ◌*◌, ◌<◌, get_or, IfSome, Some};
ghost use Rattle.boards.specs.Boards.{On, Has, Only};

use super::state::Boards;
use grid::legal::is_digit;

// The words of a full grid: each digit stands where it does, and nowhere else.
fn words_of(grid: &[u8; 81]) -> [u32; 36]
    ensures { (d j i : ℕ) → d < 9 → j < 3 → i < 27 →
        On (get_or result (4 * d + j) 0) i → Has grid.now d j i }
{
    let mut words = [0u32; 36];
    for cell in 0..81 {
        if is_digit(grid[cell]) {
            let d = (grid[cell] - b'1') as usize;
            words[4 * d + cell / 27] |= 1 << (cell % 27) as u32;
        }
    }
    words
}

impl Boards {
    // The digits that stand alone in their cells. Of other cells nothing is promised, nor that it is so.
    #[tactic(auto, using(crate::proofs::Bits::fewer))]
    fn digits(&self) -> [u8; 81] {
        let mut grid = [b'1'; 81];
        for d in 1..9 {
            for j in 0..3 {
                let mut word = self.words[4 * d + j];
                while word != 0 {
                    let i = word.trailing_zeros() as usize;
                    word &= word - 1;
                    if i < 27 {
                        grid[27 * j + i] = b'1' + d as u8;
                    }
                }
            }
        }
        grid
    }

    // The only grid that may fit, where the words are those of one.
    pub fn only(&self) -> Option<[u8; 81]>
        ensures { IfSome result (λ grid. Only self.now.words (Some grid)) }
    {
        let grid = self.digits();
        if words_of(&grid) == self.words {
            Some(grid)
        } else {
            None
        }
    }
}
