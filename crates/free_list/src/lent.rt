// What a caller lends.
ghost use Rattle.std.specs.Prelude.{◌≡◌};
ghost use Rattle.free_list.specs.Chain.{freed_cell};

use cells::words::Words;

/// A cell that a caller lends: its words, and the mark that says whether it is held.
// The mark stands beside the words, and they are no Option: a free cell keeps its words, and the first of them is the chain.
#[derive(Clone, Copy, PartialEq, Eq, Debug)]
pub struct LentCell {
    pub words: Words,
    pub held: bool,
}

impl LentCell {
    // The cell once it is free, with the number of the next free cell as its first word.
    pub(crate) fn freed(self, next: u32) -> LentCell
        ensures { result ≡ freed_cell self next }
    {
        LentCell {
            words: Words {
                element: next,
                ..self.words
            },
            held: false,
        }
    }
}
