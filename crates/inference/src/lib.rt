// Inference: the job call.
//
//     job    a grid's givens, then trials, with the refusals of a job call
#![tactic(auto)]

pub mod job;
