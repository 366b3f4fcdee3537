// The pool: 1,024 cells of its own, with one mark for each.
ghost use Rattle.std.specs.Prelude.{◌≡◌, ◌+◌, ◌≤◌, length, Some};
ghost use Rattle.bits.specs.Flags.{flags};
ghost use Rattle.cells.specs.Cells.{Held, Unheld, empty, put, without, count};
ghost use Rattle.cells.specs.Rows.{pool_capacity, numbered_from_one};

use super::fault::StoreFault;
use super::store::{CellStore, Meaning};
use super::words::Words;
use bits::Flags;

/// How many cells a pool has.
pub const POOL_CELLS: usize = 1024;

/// The layer code of a pool.
pub const POOL_CODE: u8 = 2;

/// Cells of its own, which no caller lends.
#[derive(Drop)]
pub struct Pool {
    // the cell with the number n stands at the place n - 1. The marks stand apart, packed in words: as [Option<Words>; POOL_CELLS]
    // the pool is a third larger, and a take that finds only the last cell free takes ten times as long
    rows: [Words; POOL_CELLS],
    marks: Flags,
    // how many marks are set
    taken: u32,
    // words for each mark
    ghost all_rows: { length rows ≡ pool_capacity },
    // how many cells are held
    ghost counted: { taken ≡ count (numbered_from_one (flags marks.words) rows) },
}

impl Pool {
    ghost use Rattle.cells.specs.Pool.{pool_cells, SoughtLowest, ToldWhetherHeld};

    /// A pool with no cell held.
    pub fn new() -> Pool
        ensures none_held { pool_cells result ≡ empty }
    {
        Pool {
            rows: [Words::default(); POOL_CELLS],
            marks: Flags::none(),
            taken: 0,
        }
    }

    // Whether a number is that of a held cell. The row of marks answers for places past its end, too.
    fn is_held(&self, number: u32) -> bool
        ensures { ToldWhetherHeld (pool_cells self.now) number result }
    {
        number > 0 && self.marks.is_set((number - 1) as usize)
    }

    // The words of a held cell.
    fn words_of(&self, number: u32) -> Words
        requires held { Held (pool_cells self.now) number }
        ensures { Some result ≡ pool_cells self.now number }
    {
        self.rows[(number - 1) as usize]
    }

    // The lowest number that is not held.
    fn lowest_free(&self) -> Option<u32>
        ensures { SoughtLowest (pool_cells self.now) result }
    {
        let place = self.marks.first_clear()?;
        Some(place as u32 + 1)
    }

    // Holds a cell that is not held.
    fn hold(&mut self, number: u32, words: Words)
        requires from_one { 1 ≤ number }
        requires in_pool { number ≤ pool_capacity }
        requires unheld { Unheld (pool_cells self.old) number }
        ensures held { pool_cells self.new ≡ put (pool_cells self.old) number words }
        ensures one_more { count (pool_cells self.new) ≡ count (pool_cells self.old) + 1 }
    {
        let place = (number - 1) as usize;
        self.rows[place] = words;
        self.marks.turn(place);
        self.taken += 1;
    }

    // Ends the holding of a cell that is held.
    fn release(&mut self, number: u32)
        requires held { Held (pool_cells self.old) number }
        ensures unheld { pool_cells self.new ≡ without (pool_cells self.old) number }
        ensures one_less { count (pool_cells self.new) + 1 ≡ count (pool_cells self.old) }
    {
        let place = (number - 1) as usize;
        self.marks.turn(place);
        self.taken -= 1;
    }

    // Leaves no cell held. The words of the cells stay: nothing reads them until they are taken again.
    fn reset(&mut self)
        ensures none_held { pool_cells self.new ≡ empty }
        ensures none_counted { count (pool_cells self.new) ≡ 0 }
    {
        self.marks.clear();
        self.taken = 0;
    }
}

impl Meaning for Pool {
    ghost use Rattle.cells.specs.Pool.{pool_code, pool_cells};
    ghost use Rattle.cells.specs.Bounds.{pool_small, pool_numbered, pool_within};

    ghost cells = { pool_cells };

    ghost capacity = { λ _. pool_capacity };

    ghost code = { λ _. pool_code };

    // its type says all of it
    ghost ok = { λ _. Unit };

    ghost small = { λ _ _. pool_small };

    ghost numbered = { λ pool _. pool_numbered pool };

    ghost within = { λ pool _. pool_within pool };
}

impl CellStore for Pool {
    ghost use Rattle.cells.specs.Calls.{Takes};
    ghost use Rattle.cells.specs.Pool.{pool_code, pool_cells, PoolTook};

    fn free(&self) -> u32 {
        POOL_CELLS as u32 - self.held()
    }

    fn held(&self) -> u32 {
        self.taken
    }

    fn read(&self, number: u32) -> Option<Words> {
        self.is_held(number).then(|| self.words_of(number))
    }

    fn take(&mut self, words: Words) -> Result<u32, StoreFault>
        ensures took { Takes pool_cells (λ _. pool_capacity) (λ _. pool_code) self.old words result self.new }
        ensures lowest { PoolTook (pool_cells self.old) result }
    {
        let number = self.lowest_free().ok_or(StoreFault { code: POOL_CODE })?;
        self.hold(number, words);
        Ok(number)
    }

    fn give(&mut self, number: u32) -> Option<()> {
        if !self.is_held(number) {
            return None;
        }
        self.release(number);
        Some(())
    }

    fn clear(&mut self) {
        self.reset();
    }
}
