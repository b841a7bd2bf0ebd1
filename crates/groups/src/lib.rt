// The groups of a place: nine places each, of which a full grid makes one true, and the numbers of the clauses over them. A nine-literal clause has
// a slot, in which its sum stands: one for each group, in the order of the clauses' numbers. A two-literal clause is a pair of places of a group.
// Places are plain numbers below 729, as they are computed: a type with that bound would be made and taken apart at each use.
//
//     Kind          the cell, the column, the row or the box of a place: its places, its slot, and the numbers of its clauses
//     Line          the nine places of a group
//     nines_of      the kinds of which a clause set has the nine-literal clauses
//     slot_of       the slot of a nine-literal clause
//     pair_table    the indices of the pairs of nine places, by which their clauses are numbered
#![tactic(auto)]

ghost use Rattle.std.specs.Prelude.{◌≡◌, ℕ, ◌/◌, ◌<◌};
ghost use Rattle.groups.specs.Groups.{group_at, place_along, LineOf, nines_of, row_at, first_number, pair_table, slot_at, clause_in};

use clauses::ClauseSet;

// The nine places of a group, three by three: the k-th is first + far * (k / 3) + near * (k % 3).
#[derive(Clone, Copy)]
pub struct Line {
    first: usize,
    far: usize,
    near: usize,
}

impl Line {
    // The k-th place of the group.
    pub fn place(self, k: usize) -> usize
        requires { place_along self k < 729 }
        ensures { result ≡ place_along self k }
    {
        self.first + self.far * (k / 3) + self.near * (k % 3)
    }
}

// The cell of a place, and the column, the row and the box of its cell for its digit.
#[derive(Clone, Copy)]
pub enum Kind {
    Cell,
    Column,
    Row,
    Box,
}

impl Kind {
    // The places of the group of this kind at place p.
    #[tactic(auto, using(crate::proofs::Slots::cell_place, crate::proofs::Slots::row_place, crate::proofs::Slots::column_place, crate::proofs::Slots::box_place))]
    pub fn line_of(self, p: usize) -> Line
        requires { p < 729 }
        ensures { LineOf (group_at self p) result }
    {
        match self {
            Kind::Cell => Line {
                first: 9 * (p / 9),
                far: 3,
                near: 1,
            },
            Kind::Column => Line {
                first: p % 81,
                far: 243,
                near: 81,
            },
            Kind::Row => Line {
                first: 81 * (p / 81) + p % 9,
                far: 27,
                near: 9,
            },
            Kind::Box => Line {
                first: p - 81 * (p / 81 % 3) - 9 * (p / 9 % 3),
                far: 81,
                near: 9,
            },
        }
    }

    // The row of place p in the table of pairs, for its group of this kind.
    #[tactic(auto, unfolding(crate::specs::Groups::row_at, crate::specs::Groups::index_at))]
    pub fn row_at(self, p: usize) -> usize
        ensures { result ≡ row_at self p }
    {
        match self {
            Kind::Cell => 9 * (p % 9),
            Kind::Column => 9 * (p / 81),
            Kind::Row => 9 * (p / 9 % 9),
            Kind::Box => 81 + 9 * (3 * (p / 81 % 3) + p / 9 % 3),
        }
    }

    // The number from which on the pairs of p with the places of a third of its group are counted: a box has those in one row of it apart.
    #[tactic(auto, unfolding(crate::specs::Groups::first_number))]
    pub fn first_number(self, p: usize, third: usize) -> usize
        requires { p < 729 }
        ensures { result ≡ first_number self p third }
    {
        match self {
            Kind::Cell => 8829 + 36 * (p / 9),
            Kind::Column => 81 + 36 * (p % 81),
            Kind::Row => 2997 + 36 * (9 * (p / 81) + p % 9),
            Kind::Box => {
                let q = 9 * (p % 9) + (3 * (p / 243) + p / 27 % 3);
                if third == p / 81 % 3 {
                    5913 + 9 * q
                } else {
                    6642 + 27 * q
                }
            }
        }
    }

    // The slot of the group of this kind at place p. The row and the column of boxes are found by two divisions each: by one, as p / 243, a closure
    // takes 4% longer.
    #[tactic(auto, using(crate::proofs::Slots::box_row, crate::proofs::Slots::box_column), unfolding(crate::specs::Groups::slot_at))]
    pub fn slot_at(self, p: usize) -> usize
        ensures { result ≡ slot_at self p }
    {
        match self {
            Kind::Cell => p / 9,
            Kind::Column => 81 + p % 81,
            Kind::Row => 162 + (9 * (p / 81) + p % 9),
            Kind::Box => 243 + (9 * (p % 9) + (3 * (p / 81 / 3) + p / 9 % 9 / 3)),
        }
    }

    // The number of the nine-literal clause of the group of this kind at place p.
    #[tactic(auto, using(crate::proofs::Slots::slot_below), unfolding(crate::specs::Groups::clause_in))]
    pub fn clause_at(self, p: usize) -> u16
        requires { p < 729 }
        ensures { result ≡ clause_in (slot_at self p) }
    {
        let slot = self.slot_at(p);
        if slot < 81 {
            slot as u16
        } else {
            (11664 + slot) as u16
        }
    }
}

// The kinds.
static KINDS: [Kind; 4] = [Kind::Cell, Kind::Column, Kind::Row, Kind::Box];

// The kinds of which a set has the nine.
pub fn nines_of(set: ClauseSet) -> &'static [Kind]
    ensures { result.now ≡ nines_of set }
{
    match set {
        ClauseSet::Minimal => &KINDS[..1],
        ClauseSet::Extended => &KINDS,
    }
}

// The table of pairs: by row and column, the index of each pair of nine places, and then of each in a box.
static PAIRS: [u8; 162] = [
    0, 0, 1, 2, 3, 4, 5, 6, 7, 0, 8, 8, 9, 10, 11, 12, 13, 14, 1, 8, 15, 15, 16, 17, 18, 19, 20, 2,
    9, 15, 21, 21, 22, 23, 24, 25, 3, 10, 16, 21, 26, 26, 27, 28, 29, 4, 11, 17, 22, 26, 30, 30,
    31, 32, 5, 12, 18, 23, 27, 30, 33, 33, 34, 6, 13, 19, 24, 28, 31, 33, 35, 35, 7, 14, 20, 25,
    29, 32, 34, 35, 36, 0, 0, 1, 0, 1, 2, 3, 4, 5, 0, 1, 2, 6, 7, 8, 9, 10, 11, 1, 2, 3, 12, 13,
    14, 15, 16, 17, 0, 6, 12, 3, 3, 4, 18, 19, 20, 1, 7, 13, 3, 4, 5, 21, 22, 23, 2, 8, 14, 4, 5,
    6, 24, 25, 26, 3, 9, 15, 18, 21, 24, 6, 6, 7, 4, 10, 16, 19, 22, 25, 6, 7, 8, 5, 11, 17, 20,
    23, 26, 7, 8, 9,
];

// The table of pairs.
#[tactic(auto, unfolding(crate::specs::Groups::pair_table))]
pub fn pair_table() -> &'static [u8; 162]
    ensures { result.now ≡ pair_table }
{
    &PAIRS
}

// The slot of a clause.
#[tactic(auto, using(crate::proofs::Slots::clause_number))]
pub fn slot_of(clause: u16) -> usize
    ensures { (x : ℕ) → x < 324 → clause ≡ clause_in x → result ≡ x }
{
    let n = usize::from(clause);
    if n < 11664 { n } else { n - 11664 }
}
