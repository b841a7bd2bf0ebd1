// Unit closures: of marks with one literal more, and of a grid's givens. The clauses that are listed are looked at one by one, until none is
// left or one is a contradiction.
ghost use Rattle.std.specs.Prelude.{suc, ◌<◌, T, pos, Some};
ghost use mathlib.Core.List.{Memᴰ};
ghost use Rattle.clauses.specs.Literal.{Literal};
ghost use Rattle.clauses.specs.Models.{givens};
ghost use Rattle.clauses.specs.declared.ClauseSet.TheVariants.{Extended};
ghost use Rattle.closure.specs.Closure.{With};
ghost use Rattle.closure.specs.Marks.{has, is_decided, blank};
ghost use Rattle.worklist.specs.Acting.{Ready, Struck, Last, StepsTo};
ghost use Rattle.worklist.specs.Sums.{SumsOk};
ghost use Rattle.propagation.specs.Steps.{Closed, ClosesTo, ComesTo};

use clauses::{ClauseSet, literal};
use grid::legal::is_digit;
use groups::slot_of;
use worklist::acting::{Clash, State, Worklist};

// Looks at the clause that was listed last: a contradiction where all its places are false; else one is left, and becomes true, which takes the clause
// off the list.
fn look(state: &mut State, list: &mut Worklist, set: ClauseSet, clause: u16) -> Result<(), Clash>
    requires { Ready set state.old list.old × Struck set state.old.marks × Last list.old (Some clause) }
    ensures { StepsTo set state.old state.old.marks state.new list.new result }
{
    let sum = usize::from(state.sums[slot_of(clause)]);
    if sum == 0 {
        return Err(Clash);
    }
    state.affirm(list, set, sum - 1024)
}

// Looks at all clauses that are listed, and at those that come to be listed meanwhile.
fn propagate(state: &mut State, list: &mut Worklist, set: ClauseSet) -> Result<(), Clash>
    requires { Ready set state.old list.old × Struck set state.old.marks }
    ensures { ClosesTo set (λ l. T (has state.old.marks l)) state.new result }
{
    while let Some(clause) = list.last() {
        look(state, list, set, clause)?;
    }
    Ok(())
}

// The unit closure of marks with one literal more, which they do not decide. That the state is closed is asked, and is no invariant of it: a contradiction
// leaves it half closed. List and clause set stay beside it: a trial copies the state alone. Literals are plain numbers, as an order lends them.
pub fn close_with(
    state: &mut State,
    list: &mut Worklist,
    set: ClauseSet,
    literal: i16,
) -> Result<(), Clash>
    requires { Closed set state.old × Literal literal × (T (is_decided state.old.marks literal) → ⊥) }
    ensures { ClosesTo set (With (has state.old.marks) literal) state.new result }
{
    list.clear();
    let p = literal::mark_index(literal);
    if literal < 0 {
        state.deny(list, set, p);
    } else {
        state.affirm(list, set, p)?;
    }
    propagate(state, list, set)
}

// The unit closure of marks with one place more true: a contradiction where it is false. Places are plain numbers, as they are computed.
pub fn close_true(
    state: &mut State,
    list: &mut Worklist,
    set: ClauseSet,
    place: usize,
) -> Result<(), Clash>
    requires { Closed set state.old × (place < 729) }
    ensures { ClosesTo set (With (has state.old.marks) (pos (suc place))) state.new result }
{
    match state.marks[place] {
        0 => close_with(state, list, set, literal::positive(place)),
        1 => Ok(()),
        _ => Err(Clash),
    }
}

// The sums where no place is decided: the q-th cell, column, row and box.
fn blank_sums() -> [u16; 324]
    ensures { SumsOk Extended blank result }
{
    let mut sums = [0u16; 324];
    for q in 0..81 {
        sums[q] = (9252 + 81 * q) as u16;
        sums[81 + q] = (12132 + 9 * q) as u16;
        sums[162 + q] = (9540 + (729 * (q / 9) + 9 * (q % 9))) as u16;
        sums[243 + q] = (10026 + 9 * (q / 9 + (243 * (q % 9 / 3) + 27 * (q % 3)))) as u16;
    }
    sums
}

// The unit closure of a grid's givens, as a state.
pub fn close_givens(set: ClauseSet, grid: &[u8; 81], list: &mut Worklist) -> Result<State, Clash>
    ensures { ComesTo set (λ l. Memᴰ l (givens grid.now)) result }
{
    let mut state = State {
        marks: [0; 729],
        sums: blank_sums(),
        decided: 0,
    };
    for (i, &byte) in grid.iter().enumerate() {
        if is_digit(byte) {
            close_true(&mut state, list, set, 9 * i + usize::from(byte - 49))?;
        }
    }
    Ok(state)
}
