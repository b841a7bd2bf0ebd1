// The grids that may fit boards, counted to two. A place that is left is tried with its digit and without it, so that any place will do: how it is chosen
// promises nothing. A count ends with the only grid that may fit or with none, or is stopped, which promises nothing.
//
//     clashes      how often nothing fitted, by the word or the cell where that was found
//     choosing     the place that is tried next
//     attempts     the count, by attempts with more and more nodes
#![tactic(auto)]

pub mod attempts;
pub mod choosing;
pub mod clashes;
