// The worklist of propagation: marks with a sum for each nine-literal clause, and a list of the clauses that may act.
//
//     acting    what a place that is decided brings about: new sums, and clauses that come to act
#![tactic(auto)]

pub mod acting;
