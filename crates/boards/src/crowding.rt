// Crowded houses: where some digits have fewer cells of a house left between them than they are, nothing fits. Which digits that may be is found by
// matching each digit with a cell, of which nothing is promised; then it is counted that they are such digits.
ghost use Rattle.std.specs.Prelude.{◌≡◌, true, ◌<◌};
ghost use Rattle.grid.specs.Counting.{tally};
ghost use Rattle.boards.specs.Tables.{on};
ghost use Rattle.boards.specs.Boards.{Empty};

use super::state::Boards;
use grid::house_cell;

// Which digit has which of nine cells, and the cells that are free, a bit for each. Digits and cells are counted from 0.
#[derive(Drop)]
struct Matching {
    owner: [usize; 9],
    free: u32,
}

// How a digit comes to a free cell: the cell, and for each cell that is reached the digit that would move there.
#[derive(Drop)]
struct Way {
    end: usize,
    mover: [usize; 9],
    ghost below: { end < 9 },
}

impl Matching {
    // How a digit comes to a cell: a free one, or that of a digit which can move to another. Where all cells that are reached are taken, their digits and
    // it are more than these cells.
    #[tactic(auto, using(crate::proofs::Bits::fewer))]
    fn reach(&self, cells: &[u32; 9], digit: usize) -> Result<Way, u32>
        requires { digit < 9 }
    {
        let mut mover = [digit; 9];
        let mut reached = cells[digit];
        let mut fresh = reached;
        let mut digits = 1u32 << digit as u32;
        for _ in 0..10 {
            if reached & self.free != 0 {
                break;
            }
            if fresh == 0 {
                return Err(digits);
            }
            let owner = self.owner[fresh.trailing_zeros() as usize % 9] % 9;
            fresh &= fresh - 1;
            digits |= 1 << owner as u32;
            let mut more = cells[owner] & !reached;
            reached |= more;
            fresh |= more;
            while more != 0 {
                mover[more.trailing_zeros() as usize % 9] = owner;
                more &= more - 1;
            }
        }
        Ok(Way {
            end: (reached & self.free).trailing_zeros() as usize % 9,
            mover,
        })
    }

    // Each digit on the way moves on, so that the first of them has a cell too.
    fn give(&mut self, digit: usize, way: &Way) {
        let mut cell = way.end;
        self.free &= !(1 << cell as u32);
        for _ in 0..9 {
            let mover = way.mover[cell];
            let before = (0..9).find(|k| *k != cell && self.owner[*k] == mover);
            self.owner[cell] = mover;
            match before {
                Some(other) if mover != digit => cell = other % 9,
                _ => break,
            }
        }
    }
}

// Digits that have fewer cells than they are, a bit for each, of nine with the cells of each: they are found where a digit comes to no cell.
fn crowd(cells: &[u32; 9]) -> Option<u32> {
    let mut matching = Matching {
        owner: [9; 9],
        free: 511,
    };
    for digit in 0..9 {
        match matching.reach(cells, digit) {
            Ok(way) => matching.give(digit, &way),
            Err(digits) => return Some(digits),
        }
    }
    None
}

// How many digits are chosen, by their bits.
fn count(digits: u32) -> u32
    ensures { result ≡ tally 9 (on digits) }
{
    let mut count = 0;
    for d in 0..9u32 {
        count += digits >> d & 1;
    }
    count
}

impl Boards {
    // The cells of a house that each digit may stand in, a bit for each.
    fn cells_in(&self, house: usize) -> [u32; 9]
        requires { house < 27 }
    {
        let mut cells = [0u32; 9];
        for k in 0..9u32 {
            let cell = house_cell(house, k as usize);
            let digits = self.digits_at(cell / 27, (cell % 27) as u32);
            for d in 0..9 {
                cells[d] |= (digits >> d & 1) << k;
            }
        }
        cells
    }

    // Whether the digits that are chosen have fewer cells of a house left than they are.
    fn is_confined(&self, house: usize, digits: u32) -> bool
        requires { house < 27 }
        ensures { result ≡ true → Empty self.now.words }
    {
        let mut cells = 0;
        for k in 0..9 {
            let cell = house_cell(house, k);
            if self.digits_at(cell / 27, (cell % 27) as u32) & digits != 0 {
                cells += 1;
            }
        }
        cells < count(digits)
    }

    // Whether a house is found to be crowded.
    fn is_crowded_in(&self, house: usize) -> bool
        requires { house < 27 }
        ensures { result ≡ true → Empty self.now.words }
    {
        match crowd(&self.cells_in(house)) {
            Some(digits) => self.is_confined(house, digits),
            None => false,
        }
    }

    // Whether some house is found to be crowded, so that nothing fits.
    #[inline(never)]
    pub fn is_crowded(&self) -> bool
        ensures { result ≡ true → Empty self.now.words }
    {
        (0..27).any(|house| self.is_crowded_in(house))
    }
}
