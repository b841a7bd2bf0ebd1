// The boards, and a digit placed in a cell or struck from it.
ghost use Rattle.std.specs.Prelude.{◌≡◌, List, ℕ, ◌<◌};

use super::tables::placed;

// All cells of a band.
pub const ALL: u32 = 0x7ffffff;

// Nothing fits, which was found at a word, or from 36 on at a cell.
#[derive(Clone, Copy)]
pub struct Clash {
    pub at: usize,
    ghost bounded: { at < 117 },
}

// A digit in a cell of a band, counted from 0.
#[derive(Clone, Copy)]
pub struct Place {
    pub digit: usize,
    pub band: usize,
    pub cell: u32,
    ghost digit_below: { digit < 9 },
    ghost band_below: { band < 3 },
    ghost cell_below: { cell < 27 },
}

// Word 4 d + j has the cells of band j that digit d may stand in; a fourth word is not used, so that those of a digit are four lanes. What was
// looked at last, and which cells no digit was found alone in, only says what to look at next: of that nothing is promised.
#[derive(Clone, Copy)]
pub struct Boards {
    pub words: [u32; 36],
    pub seen: [u32; 36],
    pub open: [u32; 4],
}

impl Boards {
    ghost use Rattle.boards.specs.Boards.{On, Has, HasAll, Covers, Pointed, word_of, Fits};

    // With the digit in its cell.
    #[inline]
    pub fn place(&mut self, p: Place)
        ensures { (b : List ℕ) → Fits self.old.words b → Has b p.digit p.band p.cell →
            Fits self.new.words b }
    {
        self.words[4 * p.digit + p.band] &= placed(p.cell as usize);
    }

    // With another digit in the cell.
    #[inline]
    pub fn strike(&mut self, p: Place)
        ensures { (b : List ℕ) → Fits self.old.words b → ¬ Has b p.digit p.band p.cell →
            Fits self.new.words b }
    {
        self.words[4 * p.digit + p.band] &= !(1 << p.cell);
    }

    // With the digit in some cells of a band: no other stands there.
    #[inline]
    pub fn fix(&mut self, digit: usize, band: usize, cells: u32)
        requires { (digit < 9) × (band < 3) }
        ensures { (b : List ℕ) → Fits self.old.words b → HasAll b digit band cells →
            Fits self.new.words b }
    {
        let own = self.words[4 * digit + band];
        for e in 0..9 {
            self.words[4 * e + band] &= !cells;
        }
        self.words[4 * digit + band] = own;
        self.open[band] &= !cells;
    }

    // With the digit in some cells of a band, and in the other bands not in some columns.
    #[inline]
    pub fn point(&mut self, digit: usize, band: usize, cells: u32, columns: u32)
        requires { (digit < 9) × (band < 3) }
        ensures { (b : List ℕ) → Fits self.old.words b → Covers b digit band cells →
            Pointed b digit band columns → Fits self.new.words b }
    {
        for k in 0..3 {
            self.words[4 * digit + k] &= !columns;
        }
        self.words[4 * digit + band] = cells;
    }

    // The digits that a cell may have, a bit for each.
    #[inline]
    pub fn digits_at(&self, band: usize, cell: u32) -> u32
        requires { (band < 3) × (cell < 27) }
        ensures { (d : ℕ) → d < 9 → On (word_of self.now.words d band) cell → On result d }
    {
        let mut digits = 0u32;
        for d in 0..9u32 {
            digits |= (self.words[4 * (d as usize) + band] >> cell & 1) << d;
        }
        digits
    }
}
