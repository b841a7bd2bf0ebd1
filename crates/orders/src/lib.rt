// What the operator sets: the technique of a job, and the order of its trials.
//
//     technique      techniques: a clause set, and whether trials are made
//     order          the operator's check of an order of trials, and the default order
#![tactic(auto)]

pub mod order;
pub mod technique;
