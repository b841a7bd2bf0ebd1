// The place that is tried next. Nothing is promised of it: any place will do.
ghost use Rattle.std.specs.Prelude.{◌<◌, ◌≤◌};

use super::clashes::Clashes;
use boards::settling::Counts;
use boards::state::{ALL, Boards, Place};
use boards::tables::placed;

// The first column of a band.
const COLUMN: u32 = 0o1001001;

// The first row of a band, and its first box.
const ROW: u32 = 0o777;

const BOX: u32 = 0o7007007;

// A place, and how much speaks for it.
#[derive(Clone, Copy)]
struct Choice {
    weight: u32,
    place: Place,
}

impl Choice {
    // None, as long as nothing speaks for it.
    fn none() -> Choice {
        Choice {
            weight: 0,
            place: Place {
                digit: 0,
                band: 0,
                cell: 0,
            },
        }
    }

    // The place, if more speaks for it.
    #[inline]
    fn or(self, weight: u32, digit: usize, band: usize, cell: u32) -> Choice
        requires { (digit < 9) × (band < 3) }
    {
        if self.weight < weight && cell < 27 {
            Choice {
                weight,
                place: Place { digit, band, cell },
            }
        } else {
            self
        }
    }
}

// How many candidates for a digit see a cell, those in cells with two digits five times.
#[inline]
fn seen_by(boards: &Boards, pairs: &[u32; 4], digit: usize, band: usize, cell: u32) -> u32
    requires { (digit < 9) × (band < 3) × (cell < 27) }
    ensures { result ≤ 480 }
{
    let near = ALL & !placed(cell as usize);
    let column = COLUMN << (cell % 9);
    let mut sum = 0u32;
    for k in 0..3 {
        let peers = boards.words[4 * digit + k] & if k == band { near } else { column };
        sum += peers.count_ones() + 4 * (peers & pairs[k]).count_ones();
    }
    sum
}

// Of the cells with two digits the one that most candidates for them see, each clash there counting four times.
#[tactic(auto, using(boards::proofs::Bits::fewer))]
#[inline(never)]
fn most_seen(boards: &Boards, counts: &Counts, clashes: &Clashes) -> Choice {
    let pairs: [u32; 4] = std::array::from_fn(|j| counts.two[j] & !counts.three[j]);
    let mut choice = Choice::none();
    for j in 0..3 {
        let mut cells = pairs[j];
        while cells != 0 {
            let i = cells.trailing_zeros();
            cells &= cells - 1;
            if i < 27 {
                let digits = boards.digits_at(j, i);
                let d = digits.trailing_zeros() as usize;
                let e = (digits & digits.wrapping_sub(1)).trailing_zeros() as usize;
                if d < 9 && e < 9 {
                    let seen = seen_by(boards, &pairs, d, j, i) + seen_by(boards, &pairs, e, j, i);
                    let failed = clashes.at_cell(27 * j + i as usize);
                    choice = choice.or(1 + seen + 4 * failed, d, j, i);
                }
            }
        }
    }
    choice
}

// Of some bits one, by the number of the attempt: the lowest, or in each other attempt the highest or the second.
#[inline]
fn one_of(bits: u32, attempt: u32) -> u32 {
    if attempt % 2 == 0 {
        bits.trailing_zeros()
    } else if attempt % 4 == 1 {
        31u32.wrapping_sub(bits.leading_zeros())
    } else {
        (bits & bits.wrapping_sub(1)).trailing_zeros()
    }
}

// The more clashes for each candidate, the more speaks for it.
#[inline]
fn weight_of(candidates: u32, failed: u32) -> u32
    requires { failed < 65536 }
{
    (failed + 1) * 4096 / candidates.max(1)
}

// A candidate of the cell or house that has the fewest for its clashes.
#[tactic(auto, using(boards::proofs::Bits::fewer))]
#[inline(never)]
fn lightest(boards: &Boards, counts: &Counts, clashes: &Clashes, attempt: u32) -> Choice {
    let mut choice = Choice::none();
    for j in 0..3 {
        let mut cells = counts.two[j];
        while cells != 0 {
            let i = cells.trailing_zeros();
            cells &= cells - 1;
            if i < 27 {
                let digits = boards.digits_at(j, i);
                let weight = weight_of(digits.count_ones(), clashes.at_cell(27 * j + i as usize));
                let d = one_of(digits, attempt) as usize;
                if d < 9 {
                    choice = choice.or(weight, d, j, i);
                }
            }
        }
    }
    for d in 0..9 {
        for j in 0..3 {
            let word = boards.words[4 * d + j];
            let failed = clashes.at_word(4 * d + j);
            for k in 0..3u32 {
                for cells in [word & (ROW << (9 * k)), word & (BOX << (3 * k))] {
                    if 1 < cells.count_ones() {
                        let weight = weight_of(cells.count_ones(), failed);
                        choice = choice.or(weight, d, j, one_of(cells, attempt));
                    }
                }
            }
        }
    }
    choice
}

// A place that is not the only one of its cell, unless every cell has one digit at most.
pub(crate) fn choose(
    boards: &Boards,
    counts: &Counts,
    clashes: &Clashes,
    attempt: u32,
) -> Option<Place> {
    if attempt == 0 {
        let choice = most_seen(boards, counts, clashes);
        if 0 < choice.weight {
            return Some(choice.place);
        }
    }
    if counts.two[0] | counts.two[1] | counts.two[2] == 0 {
        return None;
    }
    Some(lightest(boards, counts, clashes, attempt).place)
}
