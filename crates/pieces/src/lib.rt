// The pieces of a job file.
//
//     piece     one reader for pieces of every kind, and the walk from piece to piece
//     number    little-endian numbers
#![tactic(auto)]

pub mod number;
pub mod piece;
