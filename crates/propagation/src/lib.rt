// Unit propagation over marks, by a list of the clauses that may act.
//
//     close    the unit closure of marks with one literal more, and of a grid's givens
#![tactic(auto)]

pub mod close;
