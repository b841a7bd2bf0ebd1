// Job files: a grid, a technique, and where they are named a ceiling and an order, as pieces of one file.
//
//     read         the reading call, with its refusals
//     Settings     what it answers
#![tactic(auto)]

ghost use Rattle.std.specs.Prelude.{◌≡◌, length, Some, IfOk, OnErr};
ghost use Rattle.pieces.specs.Format.{IsFault};
ghost use Rattle.grid.specs.declared.Refusal.{Refusal};
ghost use Rattle.std.specs.Result.{result_err};
ghost use Rattle.grid.specs.Refusals.{first_broken};
ghost use Rattle.jobfile.specs.Contents.{entries_in, order_in};
ghost use Rattle.jobfile.specs.Call.{contents_check, read_rules, Sets, read_bodies, read_call};

use grid::{Refusal, check_grid};
use orders::order::{DEFAULT_CEILING, ENTRIES, check_order, default_order};
use orders::technique::Technique;
use pieces::number::signed_at;
use pieces::piece::{Bodies, read_pieces};

// What a job file sets.
#[derive(Clone, Copy, Debug, PartialEq, Eq)]
pub struct Settings {
    pub technique: Technique,
    pub ceiling: u32,
}

// The entries that the body of an order has.
fn entries_in(body: &[u8; 2916]) -> [i16; ENTRIES]
    ensures { result ≡ entries_in body.now }
{
    std::array::from_fn(|k| signed_at(body, 2 * k))
}

// The order of a file, if it names one.
#[tactic(auto, unfolding(crate::specs::Contents::order_in))]
fn order_in(body: &Option<[u8; 2916]>) -> [i16; ENTRIES]
    ensures { result ≡ order_in body.now }
{
    match body {
        Some(body) => entries_in(body),
        None => default_order(),
    }
}

// The keyer's check of a grid, then the operator's of a technique's number and of an order: refusals 12, 21, 23 and 24.
#[tactic(auto, unfolding(crate::specs::Call::contents_check))]
fn check_contents(
    grid: &[u8; 81],
    technique: u8,
    order: &[i16; ENTRIES],
) -> Result<Technique, Refusal>
    ensures { result ≡ contents_check grid.now technique order.now }
{
    check_grid(grid)?;
    let technique = Technique::try_from(u32::from(technique))?;
    check_order(order)?;
    Ok(technique)
}

// What the bodies say, once the pieces are found: it is checked, and only then fills what is lent.
#[tactic(auto, unfolding(crate::specs::Call::read_bodies))]
fn read_bodies(
    bodies: &Bodies,
    grid: &mut [u8; 81],
    order: &mut [i16; ENTRIES],
) -> Result<Settings, Refusal>
    ensures { (result, grid.new, order.new)
        ≡ read_bodies bodies.now grid.old order.old }
{
    let entries = order_in(&bodies.order);
    let technique = check_contents(&bodies.grid, bodies.technique, &entries)?;
    *grid = bodies.grid;
    *order = entries;
    Ok(Settings {
        technique,
        ceiling: bodies.ceiling.unwrap_or(DEFAULT_CEILING),
    })
}

// The reading of a file into what is lent in its full length.
#[tactic(auto, unfolding(crate::specs::Call::lent_check, crate::specs::Call::read_call))]
fn read_file(
    file: &[u8],
    grid: &mut [u8; 81],
    order: &mut [i16; ENTRIES],
) -> Result<Settings, Refusal>
    ensures { (result, grid.new, order.new) ≡ read_call file.now grid.old order.old }
{
    read_bodies(&read_pieces(file)?, grid, order)
}

/// The reading call, which is lent 81 bytes for the grid and 1,458 literals for the order, and answers technique and ceiling. It refuses with 42 and 46
/// for what is lent; 31, 32 and 33 piece by piece and 34 at the end; 12, 21, 23 and 24 for what the file says; tested in this order.
#[tactic(auto, unfolding(crate::specs::Call::lent_check, crate::specs::Call::read_call))]
pub fn read(file: &[u8], grid: &mut [u8], order: &mut [i16]) -> Result<Settings, Refusal>
    ensures exact { (result, grid.new, order.new) ≡ read_call file.now grid.old order.old }
    ensures refused { result_err result ≡ first_broken (read_rules file.now grid.old order.old) }
    ensures faults { (fault : Refusal) → IsFault file.now fault →
        (length grid.old ≡ 81) × (length order.old ≡ 1458) → result_err result ≡ Some fault }
    ensures err { OnErr result ((grid.new ≡ grid.old) × (order.new ≡ order.old)) }
    ensures ok { IfOk result (λ settings. Sets file.now settings grid.new order.new) }
{
    let Some(grid) = grid.as_mut_array() else {
        return Err(Refusal::BufferLength);
    };
    let Some(order) = order.as_mut_array() else {
        return Err(Refusal::OrderBuffer);
    };
    read_file(file, grid, order)
}
