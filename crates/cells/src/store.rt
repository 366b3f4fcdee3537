// The interface of every cell store, and the meaning that its calls speak of.
ghost use Rattle.std.specs.Prelude.{ℕ, ◌≤◌};
ghost use Rattle.cells.specs.Cells.{Map, Numbered, count, last_number};
ghost use Rattle.cells.specs.Calls.{Takes, Gives, Clears};
ghost use Rattle.cells.specs.Outcomes.{ToldFree, ToldHeld, Read};

use super::fault::StoreFault;
use super::words::Words;

/// What a store means. It stands apart from the calls so that a store which borrows its cells can give it too.
pub trait Meaning {
    // the words of each held cell, by its number
    ghost cells: { Self → Map };

    // how many cells can be held at once
    ghost capacity: { Self → ℕ };

    // the layer code with which a take would be refused
    ghost code: { Self → ℕ };

    // what making a store establishes and every call keeps. It is a member, and not left to each store's type, so that a layer over
    // any store can have one without a bound on its type: with such a bound no pile of layers can stand in a field of a struct that is
    // generic over its store. A store whose type says all of it has `λ _. Unit` here
    ghost ok: { Self → Type 0 };

    // numbers end there, so no store can hold more
    ghost small: { (s : Self) → ok s → capacity s ≤ last_number };

    ghost numbered: { (s : Self) → ok s → Numbered (cells s) };

    // so free is never cut off at 0
    ghost within: { (s : Self) → ok s → count (cells s) ≤ capacity s };
}

/// A store of cells. Free is the capacity less the number held; no call alters the capacity.
pub trait CellStore: Meaning {
    /// How many more cells can be taken.
    fn free(&self) -> u32
        requires { Self.Meaning.ok self.now }
        ensures { ToldFree (Self.Meaning.cells self.now) (Self.Meaning.capacity self.now) result };

    /// How many cells are held.
    fn held(&self) -> u32
        requires { Self.Meaning.ok self.now }
        ensures { ToldHeld (Self.Meaning.cells self.now) result };

    /// The words of a held cell; none for any other number.
    fn read(&self, number: u32) -> Option<Words>
        requires { Self.Meaning.ok self.now }
        ensures { Read (Self.Meaning.cells self.now) number result };

    /// Holds a cell with these words and answers its number; refused exactly where free is 0, with nothing changed.
    fn take(&mut self, words: Words) -> Result<u32, StoreFault>
        requires { Self.Meaning.ok self.old }
        ensures ok { Self.Meaning.ok self.new }
        ensures took { Takes Self.Meaning.cells Self.Meaning.capacity Self.Meaning.code self.old words result self.new };

    /// Ends a held cell's being held; none, and nothing changed, for any other number.
    fn give(&mut self, number: u32) -> Option<()>
        requires { Self.Meaning.ok self.old }
        ensures ok { Self.Meaning.ok self.new }
        ensures gave { Gives Self.Meaning.cells Self.Meaning.capacity self.old number result self.new };

    /// Leaves no cell held.
    fn clear(&mut self)
        requires { Self.Meaning.ok self.old }
        ensures ok { Self.Meaning.ok self.new }
        ensures cleared { Clears Self.Meaning.cells Self.Meaning.capacity self.old self.new };
}
