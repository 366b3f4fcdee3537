// The free list: a store in lent cells, whose free ones are chained through their first words.
ghost use Rattle.std.specs.Prelude.{◌≡◌, ◌+◌, ◌-◌, ◌<◌, ◌≤◌, length, slice_set};
ghost use Rattle.cells.specs.Cells.{last_number, empty};
ghost use Rattle.free_list.specs.Lent.{lent_capacity, number_at, Sought};
ghost use Rattle.free_list.specs.Chain.{InOrder, Rising};
ghost use Rattle.free_list.specs.Once.{in_order_once};

use super::lent::LentCell;
use cells::fault::StoreFault;
use cells::store::{CellStore, Meaning};
use cells::words::Words;

/// The layer code of a free list.
pub const LIST_CODE: u8 = 1;

/// The most cells that a free list uses, however many are lent.
pub const MOST_CELLS: usize = 65_535;

/// The first word of the last free cell, and the head where no cell is free. A number and no Option, since it is a word of a cell.
const END: u32 = 0;

/// A store in lent cells.
#[derive(Drop)]
pub struct FreeList<'a> {
    // the cell with the number n stands at the place n - 1. The chain is of numbers in these cells, since a free list has no memory
    // but what the caller lends
    cells: &'a mut [LentCell],
    // the number of the first free cell
    head: u32,
    // how many cells are held
    taken: u32,
    // the free cells are chained from the head, and the others counted
    ghost order: { InOrder cells.now head taken } by { in_order_once cells.now head taken },
}

// How many of the lent cells are used.
fn capacity_of(cells: &[LentCell]) -> usize
    ensures { result ≡ lent_capacity cells.now }
{
    cells.len().min(MOST_CELLS)
}

// The number of the cell at a place, or the end of the chain past the last place.
fn number_at(place: usize, capacity: usize) -> u32
    requires { capacity ≤ last_number }
    ensures { result ≡ number_at place capacity }
{
    if place < capacity {
        place as u32 + 1
    } else {
        END
    }
}

// Chains all cells in rising order, with no mark set, and answers the number of the first.
fn link_all(cells: &mut [LentCell]) -> u32
    ensures { Rising cells.old cells.new result }
{
    let capacity = capacity_of(cells);
    for (place, cell) in cells[..capacity].iter_mut().enumerate() {
        *cell = cell.freed(number_at(place + 1, capacity));
    }
    number_at(0, capacity)
}

impl<'a> FreeList<'a> {
    ghost use Rattle.free_list.specs.Calls.{list_cells, Chained};

    /// A store in these cells, with none of them held.
    pub fn new(cells: &'a mut [LentCell]) -> FreeList<'a>
        ensures none_held { list_cells result ≡ empty }
        ensures chained { Chained cells.old result }
    {
        let head = link_all(cells);
        FreeList {
            cells,
            head,
            taken: 0,
        }
    }
}

impl FreeList<'_> {
    ghost use Rattle.free_list.specs.Calls.{lent_to};

    // The place of a held cell.
    fn place_of(&self, number: u32) -> Option<usize>
        ensures { Sought (lent_to self.now) number result }
    {
        let place = (number as usize).checked_sub(1)?;
        (place < capacity_of(self.cells) && self.cells[place].held).then_some(place)
    }
}

impl Meaning for FreeList<'_> {
    ghost use Rattle.std.proofs.Math.Nat.{min-le_right};
    ghost use Rattle.free_list.specs.Calls.{lent_to, list_code, list_cells, list_capacity};
    ghost use Rattle.free_list.specs.Places.{numbers_held};
    ghost use Rattle.free_list.specs.Bounds.{held_within};

    ghost cells = { list_cells };

    ghost capacity = { list_capacity };

    ghost code = { λ _. list_code };

    // its type says all of it
    ghost ok = { λ _. Unit };

    ghost small = { λ list _. min-le_right (length (lent_to list)) last_number };

    ghost numbered = { λ list _. numbers_held (lent_to list) };

    ghost within = { λ list _. held_within (lent_to list) list.head list.taken list.order };
}

impl CellStore for FreeList<'_> {
    ghost use Rattle.cells.specs.Calls.{Takes, Gives, Clears};
    ghost use Rattle.free_list.specs.Calls.{lent_to, list_code, list_cells, list_capacity, Chained, TookHead, GaveToHead};

    fn free(&self) -> u32 {
        capacity_of(self.cells) as u32 - self.taken
    }

    fn held(&self) -> u32 {
        self.taken
    }

    fn read(&self, number: u32) -> Option<Words> {
        self.place_of(number).map(|place| self.cells[place].words)
    }

    /// Holds the cell at the head of the chain, which goes on from where its first word led.
    fn take(&mut self, words: Words) -> Result<u32, StoreFault>
        ensures took { Takes list_cells list_capacity (λ _. list_code) self.old words result self.new }
        ensures head { TookHead self.old words result self.new }
    {
        let number = self.head;
        if number == END {
            return Err(StoreFault { code: LIST_CODE });
        }
        let place = (number - 1) as usize;
        let next = self.cells[place].words.element;
        self.cells[place] = LentCell { words, held: true };
        self.head = next;
        self.taken += 1;
        Ok(number)
    }

    /// Ends a held cell's being held, and puts it at the head of the chain.
    fn give(&mut self, number: u32) -> Option<()>
        ensures gave { Gives list_cells list_capacity self.old number result self.new }
        ensures head { GaveToHead self.old number result self.new }
    {
        let place = self.place_of(number)?;
        self.cells[place] = self.cells[place].freed(self.head);
        self.head = number;
        self.taken -= 1;
        Some(())
    }

    /// Leaves no cell held, and chains all cells in rising order.
    fn clear(&mut self)
        ensures cleared { Clears list_cells list_capacity self.old self.new }
        ensures chained { Chained (lent_to self.old) self.new }
    {
        self.head = link_all(self.cells);
        self.taken = 0;
    }
}
