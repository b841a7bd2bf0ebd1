// How often nothing fitted, by the word or the cell where that was found. A count goes by where counts before it failed: those few places make the grid hard.
ghost use Rattle.std.specs.Prelude.{◌<◌};

use boards::state::Clash;

// The clashes at each word and cell, as far as they are counted.
#[derive(Drop)]
pub struct Clashes {
    words: [u16; 36],
    cells: [u16; 81],
}

impl Clashes {
    // None yet.
    pub(crate) fn new() -> Clashes {
        Clashes {
            words: [0; 36],
            cells: [0; 81],
        }
    }

    // One more.
    pub(crate) fn add(&mut self, clash: Clash) {
        let at = clash.at;
        if at < 36 {
            self.words[at] = self.words[at].saturating_add(1);
        } else {
            self.cells[at - 36] = self.cells[at - 36].saturating_add(1);
        }
    }

    // Those at a word.
    #[inline]
    pub(crate) fn at_word(&self, word: usize) -> u32
        requires { word < 36 }
        ensures { result < 65536 }
    {
        self.words[word] as u32
    }

    // Those at a cell.
    #[inline]
    pub(crate) fn at_cell(&self, cell: usize) -> u32
        requires { cell < 81 }
        ensures { result < 65536 }
    {
        self.cells[cell] as u32
    }
}
