// Literals and the two numbered clause sets.
//
//     clause        the clause call: a set's clause by its number
//     clause_count  how many clauses a set has
//     ClauseSet     the two sets, by their numbers
//     Group         nine variables of which a full grid makes one true
//     Shape         what a clause says of a group
//     literal       literals as signed 16-bit numbers
//     decode        a clause's group and places by arithmetic on its number
//     theorems      what holds of the sets as a whole
#![tactic(auto)]

pub mod decode;
pub mod literal;
pub mod theorems;

ghost use Rattle.std.specs.Prelude.{◌≡◌, [], ◌∷◌, length, IfOk, OnErr};
ghost use Rattle.std.specs.Result.{result_err};
ghost use Rattle.grid.specs.Refusals.{first_broken};
ghost use Rattle.clauses.specs.Clauses.{clauses_of};
ghost use Rattle.clauses.specs.Call.{set_rule, set_of, clause_rules, clause_given, clause_call, GivesClause};

use grid::Refusal;

// The two clause sets: 1 is minimal, 2 is extended.
#[derive(Clone, Copy, Debug, PartialEq, Eq)]
pub enum ClauseSet {
    Minimal,
    Extended,
}

// Nine variables of which a full grid makes one true: the digits of a cell, or the cells of a house for one digit. Cells, houses and digits are plain
// numbers: they are computed, so that a type with their bound would be made and taken apart at each use.
#[derive(Clone, Copy)]
pub enum Group {
    Cell(usize),
    House(usize, usize),
}

// What a clause says: one of a group is true, or not both of two places of a group are.
#[derive(Clone, Copy)]
pub enum Shape {
    OneOf(Group),
    NotBoth(Group, usize, usize),
}

impl TryFrom<u32> for ClauseSet {
    type Error = Refusal;

    ghost try_from_gives = { λ number answer. answer ≡ set_of number };

    fn try_from(number: u32) -> Result<Self, Refusal>
        ensures exact { result ≡ set_of number }
        ensures refused { result_err result ≡ first_broken (set_rule number ∷ []) }
    {
        match number {
            1 => Ok(ClauseSet::Minimal),
            2 => Ok(ClauseSet::Extended),
            _ => Err(Refusal::ClauseSet),
        }
    }
}

// How many clauses a set has.
pub fn clause_count(set: ClauseSet) -> usize
    ensures { result ≡ length (clauses_of set) }
{
    match set {
        ClauseSet::Minimal => 8829,
        ClauseSet::Extended => 11988,
    }
}

// The clause of a number of a set.
fn clause_given(set: ClauseSet, n: usize, out: &mut [i16]) -> Result<usize, Refusal>
    ensures { (result, out.new) ≡ clause_given (clauses_of set) n out.old }
{
    if clause_count(set) <= n {
        return Err(Refusal::ClauseNumber);
    }
    if out.len() != 9 {
        return Err(Refusal::LiteralsLength);
    }
    let s = decode::shape(n);
    out.copy_from_slice(&decode::literals_of(s));
    Ok(decode::length_of(s))
}

/// A clause of set 1 or 2 by its number, counted from 0. Nine literals are lent: the clause's stand there in index order, then zeros. The answer is the
/// clause's length, 2 or 9. Refused: 43 where the set is not 1 or 2, 44 where it has no clause of that number, 45 where not nine literals are lent.
#[tactic(auto, unfolding(crate::specs::Call::clause_call))]
pub fn clause(set: u32, number: u32, literals: &mut [i16]) -> Result<usize, Refusal>
    ensures exact { (result, literals.new) ≡ clause_call set number literals.old }
    ensures refused { result_err result ≡ first_broken (clause_rules set number literals.old) }
    ensures err { OnErr result (literals.new ≡ literals.old) }
    ensures ok { IfOk result (GivesClause set number literals.new) }
{
    let named = ClauseSet::try_from(set)?;
    clause_given(named, number as usize, literals)
}
