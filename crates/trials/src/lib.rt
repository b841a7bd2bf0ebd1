// The trials of a job, from a closed state on.
//
//     trial    trials along an order, in passes, under a ceiling, and how a job ends
#![tactic(auto)]

pub mod trial;
