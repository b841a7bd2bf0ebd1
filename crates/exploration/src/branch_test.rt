// The test of a branch, which shows of some branches that they have no completion. In a first go a branch is entered wherever boards do not show it at
// once: where there are many completions, two are soon found so. Where they are not, the search begins anew, and in each branch the grids that may fit are
// counted, unless the grid that was counted last has the digit.
ghost use Rattle.std.specs.Prelude.{◌≡◌, true, IsOk, IfOk};
ghost use Rattle.exploration.specs.Search.{Enters};

use boards::state::{Boards, Place};
use counting::attempts::{Count, Stop};

// How many branches are entered at first.
const UNTESTED: u32 = 100;

// The count, with what it has learned, whether branches are tested by it, and how many are still entered if they are not.
#[derive(Drop)]
pub struct BranchTest {
    count: Count,
    pub tested: bool,
    untested: u32,
}

impl BranchTest {
    // For the first go, with a count that may have been used.
    pub(crate) fn new(count: Count) -> BranchTest
        ensures { result.count ≡ count }
    {
        BranchTest {
            count,
            tested: false,
            untested: UNTESTED,
        }
    }

    // Whether the branch is entered of a digit in a cell; the boards are then those of the branch. It is an error to enter too many in the first go.
    pub(crate) fn enters(&mut self, boards: &mut Boards, place: Place) -> Result<bool, Stop>
        ensures entered { IfOk result (λ entered.
            Enters boards.old.words boards.new.words place.digit place.band place.cell entered) }
        ensures kept { self.new.tested ≡ self.old.tested }
        ensures ok { self.old.tested ≡ true → IsOk result }
    {
        boards.place(place);
        if boards.settle().is_err() {
            return Ok(false);
        }
        if self.tested {
            return Ok(
                self.count.guesses(place) || !matches!(self.count.attempts(boards, true), Ok(None)),
            );
        }
        if self.untested == 0 {
            return Err(Stop);
        }
        self.untested -= 1;
        Ok(true)
    }
}
