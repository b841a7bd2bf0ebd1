// Boards: for each digit the cells that it may stand in, as bits. Of all that is done here one thing is promised: a legal full grid that fits still
// fits. That a bit that stays is right is nowhere promised.
//
//     tables      what the places of a digit in a band say of its others
//     state       the boards, and a digit placed or struck
//     start       the boards of a grid
//     settling    looks at what the words say, until nothing changes
//     only        the only grid that may fit
//     crowding    whether a house has too few cells for some of its digits
#![tactic(auto)]

pub mod crowding;
pub mod only;
pub mod settling;
pub mod start;
pub mod state;
pub mod tables;
