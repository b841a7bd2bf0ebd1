// What is claimed of two calls or more, of the definitions by which the calls' contracts say what they give back. Each claim is the contract of a function
// that does nothing.
//
//     comparison    what more givens and stronger rules may change: of every two jobs, those of batches included, and of every two gradings
//     same_grid     grids that differ only in their signs for a blank are one grid
#![tactic(auto)]

ghost use Rattle.demands.specs.Comparison.{Comparison};
ghost use Rattle.demands.specs.SameGrid.{SameGrid};

/// With more givens and a technique at least as strong, a job marks no less, or finds a contradiction; a grading has no higher verdict.
pub fn comparison()
    ensures { Comparison }
{}

/// A grid is its digits: the sign for a blank makes no difference to any call.
pub fn same_grid()
    ensures { SameGrid }
{}
