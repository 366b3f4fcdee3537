// What a caller lends, and rows of calls in three orders on a store in lent cells.
use crate::calls::{Filling, give_one, take_one};
use cells::store::{CellStore, Meaning};
use cells::words::Words;
use free_list::lent::LentCell;
use std::process::Abort;

mod large;
mod quota;
mod small;

/// A cell as it is lent, with a mark that making should clear.
pub const LENT: LentCell = LentCell {
    words: Words {
        element: 11,
        tail: 22,
        third: 33,
    },
    held: true,
};

// A free cell with these words, but for the first.
fn free(words: Words, next: u32) -> LentCell {
    LentCell {
        words: Words {
            element: next,
            ..words
        },
        held: false,
    }
}

/// The lent cell once it is free.
pub fn chained(next: u32) -> LentCell {
    free(LENT.words, next)
}

/// The number itself second, and a third word.
pub const LENT_FILLING: Filling = Filling {
    turned: [0xffff, 0],
    third: 7,
};

/// A cell that is held with the words of its number.
pub fn holding(number: u32) -> LentCell {
    LentCell {
        words: LENT_FILLING.words(number),
        held: true,
    }
}

/// A cell that was held with the words of its number, and then given.
pub fn given(number: u32, next: u32) -> LentCell {
    free(LENT_FILLING.words(number), next)
}

/// An order of the numbers from 1 to an odd count.
#[derive(Clone, Copy)]
pub enum Order {
    Rising,
    Falling,
    OddFirst,
}

impl Order {
    // The number at a step.
    fn number_at(self, step: u16, count: u16) -> u32 {
        let step = u32::from(step);
        let count = u32::from(count);
        match self {
            Order::Rising => step + 1,
            Order::Falling => count.saturating_sub(step),
            Order::OddFirst if step * 2 < count => step * 2 + 1,
            Order::OddFirst => (step * 2 + 1).saturating_sub(count),
        }
    }
}

/// Gives all cells in an order, each of which should be held with its own words.
// Here and in the next the steps of an order are counted, and no slice is indexed.
pub fn give_all<S: CellStore>(rt: &impl Abort, store: &mut S, order: Order, count: u16)
    requires { S.Meaning.ok store.old }
    ensures { S.Meaning.ok store.new }
{
    for step in 0..count {
        let number = order.number_at(step, count);
        give_one(rt, store, LENT_FILLING, number);
        assert_eq!(rt; store.give(number), None);
    }
}

/// Takes all cells, which should come in the reverse of an order: the last one given is the first one taken.
pub fn take_all<S: CellStore>(rt: &impl Abort, store: &mut S, order: Order, count: u16)
    requires { S.Meaning.ok store.old }
    ensures { S.Meaning.ok store.new }
{
    for step in (0..count).rev() {
        take_one(rt, store, LENT_FILLING, order.number_at(step, count));
    }
}
