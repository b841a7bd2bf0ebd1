// The ground of the grader: the 81 bytes of a grid, its cells and houses, refusals, and the keyer's check.
//
//     Refusal           why a call turns its input down
//     check_grid        the keyer's check of a grid
//     check_bytes       the part of it that a batch shares: that each byte has a meaning
//     first_bad_byte    the place of the first byte of no meaning, for bytes of any length
//     keyed             a grid's bytes as an array, where the check accepts them
//     house_cell        a cell of a house
//     legal             the test of a legal completion
#![tactic(auto)]

ghost use Rattle.std.specs.Prelude.{◌≡◌, ◌<◌, ◌↔◌, Ok, Err, IsOk, MatchResult};
ghost use Rattle.std.specs.Result.{result_err};
ghost use Rattle.grid.specs.Grid.{has_meaning};
ghost use Rattle.grid.specs.House.{cell_of};
ghost use Rattle.grid.specs.Refusals.{number_of, named_place, first_broken, first_bad, grid_rules, IsGrid, bytes_check, grid_check};

pub mod legal;

use legal::is_digit;

// Why a call turns its input down, with the place, counted from 0, where it names one.
#[derive(Clone, Copy, Debug, PartialEq, Eq)]
pub enum Refusal {
    // The keyer's: a grid that is not 81 bytes, or a byte of no meaning.
    GridLength,
    GridByte(usize),
    // The operator's: a technique that there is not, and an order that is not 1,458 long or has at a place what is no literal or stood before.
    Technique,
    OrderLength,
    OrderEntry(usize),
    OrderRepeat(usize),
    // The layout software's: a piece that is cut short, of a kind that may not stand there, or of a wrong length; and a piece that is missing.
    PieceCut(usize),
    PieceKind(usize),
    PieceLength(usize),
    PieceMissing,
    // The host's: what it lends has a wrong length, or there is no such clause set or clause.
    MarksLength,
    BufferLength,
    ClauseSet,
    ClauseNumber,
    LiteralsLength,
    OrderBuffer,
    BatchLength,
    AnswersLength,
}

impl Refusal {
    // The number that hosts and listings are told. It is a method, since `u32::from` would not say which number.
    pub fn number(self) -> u32
        ensures { result ≡ number_of self }
    {
        match self {
            Refusal::GridLength => 11,
            Refusal::GridByte(_) => 12,
            Refusal::Technique => 21,
            Refusal::OrderLength => 22,
            Refusal::OrderEntry(_) => 23,
            Refusal::OrderRepeat(_) => 24,
            Refusal::PieceCut(_) => 31,
            Refusal::PieceKind(_) => 32,
            Refusal::PieceLength(_) => 33,
            Refusal::PieceMissing => 34,
            Refusal::MarksLength => 41,
            Refusal::BufferLength => 42,
            Refusal::ClauseSet => 43,
            Refusal::ClauseNumber => 44,
            Refusal::LiteralsLength => 45,
            Refusal::OrderBuffer => 46,
            Refusal::BatchLength => 47,
            Refusal::AnswersLength => 48,
        }
    }

    // The place that it names, or 0, which is what hosts are told where there is none.
    pub fn place(self) -> usize
        ensures { result ≡ named_place self }
    {
        match self {
            Refusal::GridByte(place)
            | Refusal::OrderEntry(place)
            | Refusal::OrderRepeat(place)
            | Refusal::PieceCut(place)
            | Refusal::PieceKind(place)
            | Refusal::PieceLength(place) => place,
            _ => 0,
        }
    }
}

// A digit `1` to `9`, or a blank, `0` or `.`.
#[tactic(auto, unfolding(crate::specs::Grid::has_meaning, crate::specs::Grid::is_blank))]
fn has_meaning(b: u8) -> bool
    ensures { result ≡ has_meaning b }
{
    is_digit(b) || b == b'0' || b == b'.'
}

// The place of the first byte of no meaning.
pub fn first_bad_byte(bytes: &[u8]) -> Option<usize>
    ensures { result ≡ first_bad bytes.now }
{
    bytes.iter().position(|b| !has_meaning(*b))
}

// The keyer's check of a batch, and of a grid's bytes: each has a meaning.
#[tactic(auto, unfolding(crate::specs::Refusals::bytes_check))]
pub fn check_bytes(bytes: &[u8]) -> Result<(), Refusal>
    ensures { result ≡ bytes_check bytes.now }
{
    match first_bad_byte(bytes) {
        Some(at) => Err(Refusal::GridByte(at)),
        None => Ok(()),
    }
}

// The bytes of a grid, where the keyer's check accepts them.
#[tactic(auto, unfolding(crate::specs::Refusals::grid_check))]
pub fn keyed(bytes: &[u8]) -> Result<&[u8; 81], Refusal>
    ensures { MatchResult result (λ grid. (grid.now ≡ bytes.now) × (grid_check bytes.now ≡ Ok tt)) (λ r. grid_check bytes.now ≡ Err r) }
{
    let Ok(grid) = <&[u8; 81]>::try_from(bytes) else {
        return Err(Refusal::GridLength);
    };
    check_bytes(grid)?;
    Ok(grid)
}

// The keyer's check of a grid: 11 where it is not 81 bytes long, 12 at the first byte of no meaning.
#[tactic(auto, using(crate::proofs::Checks::grid_broken))]
pub fn check_grid(grid: &[u8]) -> Result<(), Refusal>
    ensures exact { result ≡ grid_check grid.now }
    ensures refused { result_err result ≡ first_broken (grid_rules grid.now) }
    ensures accepted { IsOk result ↔ IsGrid grid.now }
{
    keyed(grid)?;
    Ok(())
}

// The cells of the 27 houses: nine rows, nine columns, nine boxes.
static HOUSES: [[u8; 9]; 27] = [
    [0, 1, 2, 3, 4, 5, 6, 7, 8],
    [9, 10, 11, 12, 13, 14, 15, 16, 17],
    [18, 19, 20, 21, 22, 23, 24, 25, 26],
    [27, 28, 29, 30, 31, 32, 33, 34, 35],
    [36, 37, 38, 39, 40, 41, 42, 43, 44],
    [45, 46, 47, 48, 49, 50, 51, 52, 53],
    [54, 55, 56, 57, 58, 59, 60, 61, 62],
    [63, 64, 65, 66, 67, 68, 69, 70, 71],
    [72, 73, 74, 75, 76, 77, 78, 79, 80],
    [0, 9, 18, 27, 36, 45, 54, 63, 72],
    [1, 10, 19, 28, 37, 46, 55, 64, 73],
    [2, 11, 20, 29, 38, 47, 56, 65, 74],
    [3, 12, 21, 30, 39, 48, 57, 66, 75],
    [4, 13, 22, 31, 40, 49, 58, 67, 76],
    [5, 14, 23, 32, 41, 50, 59, 68, 77],
    [6, 15, 24, 33, 42, 51, 60, 69, 78],
    [7, 16, 25, 34, 43, 52, 61, 70, 79],
    [8, 17, 26, 35, 44, 53, 62, 71, 80],
    [0, 1, 2, 9, 10, 11, 18, 19, 20],
    [3, 4, 5, 12, 13, 14, 21, 22, 23],
    [6, 7, 8, 15, 16, 17, 24, 25, 26],
    [27, 28, 29, 36, 37, 38, 45, 46, 47],
    [30, 31, 32, 39, 40, 41, 48, 49, 50],
    [33, 34, 35, 42, 43, 44, 51, 52, 53],
    [54, 55, 56, 63, 64, 65, 72, 73, 74],
    [57, 58, 59, 66, 67, 68, 75, 76, 77],
    [60, 61, 62, 69, 70, 71, 78, 79, 80],
];

// The k-th cell of a house. Houses and cells are plain numbers, here and above, as they are computed.
pub fn house_cell(house: usize, k: usize) -> usize
    requires { (house < 27) × (k < 9) }
    ensures { result ≡ cell_of house k }
{
    HOUSES[house][k] as usize
}
