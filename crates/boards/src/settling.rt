// Looks at what the words say, until nothing changes: locked candidates and pointing columns of a digit in a band, digits that stand alone in their
// row, and cells that only one digit may stand in. What is looked at next promises nothing: what is looked at keeps what fits.
ghost use Rattle.std.specs.Prelude.{◌≡◌, List, ℕ, ◌+◌, ◌*◌, ◌<◌, ◌≤◌, Ok, Err};
ghost use Rattle.std.specs.Result.{MatchResult};
ghost use Rattle.boards.specs.Boards.{IsThirds, IsColumns, Keeps, Empty, StepsTo};

use super::state::{ALL, Boards, Clash, Place};
use super::tables::{every_way, singles, some_way};

// The thirds that a word has a cell of, a bit 3 t + r for third t of row r.
#[inline]
fn thirds_of(word: u32) -> usize
    ensures { IsThirds word result }
{
    let m = (word | word >> 1 | word >> 2) & 0o111111111;
    ((m | m >> 8 | m >> 16) & 511) as usize
}

// The columns that a word has a cell of.
#[inline]
fn columns_of(word: u32) -> usize
    ensures { IsColumns word result }
{
    ((word | word >> 9 | word >> 18) & 511) as usize
}

// The digits whose word of a band has changed since it was looked at, for each band a bit for each; four words of a digit at a time, as they are lanes.
#[inline(never)]
fn changed(words: &[u32; 36], seen: &[u32; 36]) -> [u32; 4] {
    let mut bits = [0; 4];
    for d in 0..9 {
        for j in 0..4 {
            bits[j] |= if words[4 * d + j] != seen[4 * d + j] {
                1 << d as u32
            } else {
                0
            };
        }
    }
    bits
}

// The cells of each band that have so many digits left or more.
#[derive(Clone, Copy)]
pub struct Counts {
    pub one: [u32; 4],
    pub two: [u32; 4],
    pub three: [u32; 4],
}

impl Boards {
    // Looks at the places of a digit in a band. Those in no way through the band go; a column that is the only one of its box goes in the other bands;
    // and where the digit is found in a cell, no other stands there.
    #[inline]
    fn look(&mut self, digit: usize, band: usize) -> Result<(), Clash>
        requires { (digit < 9) × (band < 3) }
        ensures { StepsTo self.old.words self.new.words result }
    {
        let at = 4 * digit + band;
        let word = self.words[at];
        let thirds = thirds_of(word);
        let left = word & some_way(thirds);
        if left == 0 {
            return Err(Clash { at });
        }
        let single = singles(columns_of(left));
        self.point(digit, band, left, single);
        let alone = left & every_way(thirds) & single & self.open[band];
        if alone != 0 {
            self.fix(digit, band, alone);
        }
        self.seen[at] = left;
        Ok(())
    }

    // Looks at a cell: where one digit is left, it is placed.
    #[inline]
    fn look_at_cell(&mut self, band: usize, cell: u32) -> Result<(), Clash>
        requires { (band < 3) × (cell < 27) }
        ensures { StepsTo self.old.words self.new.words result }
    {
        let digits = self.digits_at(band, cell);
        if digits == 0 {
            return Err(Clash {
                at: 36 + 27 * band + cell as usize,
            });
        }
        let d = digits.trailing_zeros();
        if d < 9 && digits == 1 << d {
            self.place(Place {
                digit: d as usize,
                band,
                cell,
            });
        }
        Ok(())
    }

    // Looks at the words of some digits in a band.
    #[tactic(auto, using(crate::proofs::Bits::fewer))]
    #[inline]
    fn look_at_digits(&mut self, band: usize, digits: u32) -> Result<(), Clash>
        requires { band < 3 }
        ensures { StepsTo self.old.words self.new.words result }
    {
        let mut digits = digits;
        while digits != 0 {
            let d = digits.trailing_zeros() as usize;
            digits &= digits - 1;
            if d < 9 {
                self.look(d, band)?;
            }
        }
        Ok(())
    }

    // Looks at words until none has changed. Looking less would lose nothing, so that the bound on the rounds needs no reason.
    #[inline]
    fn look_at_words(&mut self) -> Result<(), Clash>
        ensures { StepsTo self.old.words self.new.words result }
    {
        for _ in 0..1000 {
            let digits = changed(&self.words, &self.seen);
            if digits[0] | digits[1] | digits[2] == 0 {
                return Ok(());
            }
            for band in 0..3 {
                self.look_at_digits(band, digits[band])?;
            }
        }
        Ok(())
    }

    // The cells with one digit or more, two or more, three or more.
    #[inline]
    fn counts(&self) -> Counts {
        let mut one = [0; 4];
        let mut two = [0; 4];
        let mut three = [0; 4];
        for d in 0..9 {
            for j in 0..4 {
                let word = self.words[4 * d + j];
                three[j] |= two[j] & word;
                two[j] |= one[j] & word;
                one[j] |= word;
            }
        }
        Counts { one, two, three }
    }

    // Looks at the cells of a band that have no digit left, and at those where a digit has come to be the only one.
    #[tactic(auto, using(crate::proofs::Bits::fewer))]
    #[inline]
    fn look_at_cells(&mut self, band: usize, cells: u32) -> Result<(), Clash>
        requires { band < 3 }
        ensures { StepsTo self.old.words self.new.words result }
    {
        let mut cells = cells;
        while cells != 0 {
            let i = cells.trailing_zeros();
            cells &= cells - 1;
            if i < 27 {
                self.look_at_cell(band, i)?;
            }
        }
        Ok(())
    }

    // Looks at words and cells until nothing changes. Looking less would lose nothing, so that the bound on the rounds needs no reason.
    #[inline(never)]
    pub fn settle(&mut self) -> Result<Counts, Clash>
        ensures { MatchResult result
            (λ counts. Keeps self.old.words self.new.words)
            (λ clash. Empty self.old.words) }
    {
        for _ in 0..1000 {
            self.look_at_words()?;
            let counts = self.counts();
            let mut any = 0;
            for band in 0..3 {
                let cells = (!counts.two[band] & self.open[band]) | (ALL & !counts.one[band]);
                any |= cells;
                self.look_at_cells(band, cells)?;
            }
            if any == 0 {
                return Ok(counts);
            }
        }
        Ok(self.counts())
    }
}
