// The shape of a clause, by arithmetic on its number, and its literals.
ghost use Rattle.std.specs.Prelude.{◌≡◌, ◌<◌, length};
ghost use Rattle.clauses.specs.Call.{padded};
ghost use Rattle.clauses.specs.Shape.{place_of, IsGroup, IsShape, clause_of, shape_of, pair_of, row_pair, rows_pair, column_of, row_of, box_of};

use crate::literal::{negative, positive};
use crate::{Group, Shape};
use grid::house_cell;

// The pairs of places of a group, i below j, in index order: 10 i + j.
static PAIRS: [u8; 36] = [
    1, 2, 3, 4, 5, 6, 7, 8, 12, 13, 14, 15, 16, 17, 18, 23, 24, 25, 26, 27, 28, 34, 35, 36, 37, 38,
    45, 46, 47, 48, 56, 57, 58, 67, 68, 78,
];

// The k-th place of a group. Groups and places have plain numbers, as they are computed.
pub fn place(group: Group, k: usize) -> usize
    requires { IsGroup group × (k < 9) }
    ensures { (result ≡ place_of group k) × (result < 729) }
{
    match group {
        Group::Cell(c) => 9 * c + k,
        Group::House(h, d) => 9 * house_cell(h, k) + d,
    }
}

// Pair u of a group.
fn pair(group: Group, u: usize) -> Shape
    requires { u < 36 }
    ensures { result ≡ pair_of group u }
{
    let p = PAIRS[u] as usize;
    Shape::NotBoth(group, p / 10, p % 10)
}

// Pair t of F4 in a box: two places in one row.
fn row_pair(group: Group, t: usize) -> Shape
    requires { t < 9 }
    ensures { result ≡ row_pair group t }
{
    Shape::NotBoth(
        group,
        3 * (t / 3) + t % 3 / 2,
        3 * (t / 3) + (t % 3 + 3) / 2,
    )
}

// Pair t of F5 in a box: two places in two rows.
fn rows_pair(group: Group, t: usize) -> Shape
    requires { t < 27 }
    ensures { result ≡ rows_pair group t }
{
    if t < 18 {
        Shape::NotBoth(group, t / 6, 3 + t % 6)
    } else {
        Shape::NotBoth(group, 3 + (t - 18) / 3, 6 + t % 3)
    }
}

// The groups in the index order of the families: (y,z), (x,z), (z,a,b).
fn column(q: usize) -> Group
    ensures { result ≡ column_of q }
{
    Group::House(9 + q / 9, q % 9)
}

fn row(q: usize) -> Group
    ensures { result ≡ row_of q }
{
    Group::House(q / 9, q % 9)
}

fn boxed(q: usize) -> Group
    ensures { result ≡ box_of q }
{
    Group::House(18 + q % 9, q / 9)
}

// The shape of clause n.
pub(crate) fn shape(n: usize) -> Shape
    ensures { result ≡ shape_of n }
{
    if n < 81 {
        Shape::OneOf(Group::Cell(n))
    } else if n < 2997 {
        pair(column((n - 81) / 36), (n - 81) % 36)
    } else if n < 5913 {
        pair(row((n - 2997) / 36), (n - 2997) % 36)
    } else if n < 6642 {
        row_pair(boxed((n - 5913) / 9), (n - 5913) % 9)
    } else if n < 8829 {
        rows_pair(boxed((n - 6642) / 27), (n - 6642) % 27)
    } else if n < 11745 {
        pair(Group::Cell((n - 8829) / 36), (n - 8829) % 36)
    } else if n < 11826 {
        Shape::OneOf(column(n - 11745))
    } else if n < 11907 {
        Shape::OneOf(row(n - 11826))
    } else {
        Shape::OneOf(boxed(n - 11907))
    }
}

// How many literals a clause has.
pub(crate) fn length_of(shape: Shape) -> usize
    ensures { result ≡ length (clause_of shape) }
{
    match shape {
        Shape::OneOf(_) => 9,
        Shape::NotBoth(_, _, _) => 2,
    }
}

// The literals of a clause, then zeros.
pub(crate) fn literals_of(shape: Shape) -> [i16; 9]
    requires { IsShape shape }
    ensures { result ≡ padded (clause_of shape) }
{
    match shape {
        Shape::OneOf(g) => std::array::from_fn(|k| positive(place(g, k))),
        Shape::NotBoth(g, i, j) => {
            let first = negative(place(g, i));
            let second = negative(place(g, j));
            [first, second, 0, 0, 0, 0, 0, 0, 0]
        }
    }
}
