// Rows of calls on any store, each held to the answer that it should get.
ghost use Rattle.cells.specs.Quota.{QuotaOk};

use cells::fault::StoreFault;
use cells::prepend::{PrependFault, prepend};
use cells::quota::Quota;
use cells::store::{CellStore, Meaning};
use cells::words::Words;
use std::process::Abort;

/// What tests put into cells: words that tell one number from another.
#[derive(Clone, Copy)]
pub struct Filling {
    /// The bits of the number that are turned in the first word, and in the second.
    pub turned: [u32; 2],
    pub third: u32,
}

/// The number itself first.
pub const NUMBERS: Filling = Filling {
    turned: [0, 0xffff],
    third: 0,
};

impl Filling {
    /// The words of the cell with this number.
    pub fn words(self, number: u32) -> Words {
        let [first, second] = self.turned;
        Words {
            element: number ^ first,
            tail: number ^ second,
            third: self.third,
        }
    }
}

/// Takes one cell, which should get this number.
pub fn take_one<S: CellStore>(rt: &impl Abort, store: &mut S, filling: Filling, number: u32)
    requires { S.Meaning.ok store.old }
    ensures { S.Meaning.ok store.new }
{
    assert_eq!(rt; store.take(filling.words(number)), Ok(number));
}

/// Takes cells, which should get these numbers in this order.
pub fn take_each<S: CellStore>(rt: &impl Abort, store: &mut S, filling: Filling, numbers: &[u32])
    requires { S.Meaning.ok store.old }
    ensures { S.Meaning.ok store.new }
{
    for number in numbers {
        take_one(rt, store, filling, *number);
    }
}

/// Takes cells, which should get the numbers from 1 to the last one.
pub fn take_up_to<S: CellStore>(rt: &impl Abort, store: &mut S, filling: Filling, last: u32)
    requires { S.Meaning.ok store.old }
    ensures { S.Meaning.ok store.new }
{
    for number in 1..=last {
        take_one(rt, store, filling, number);
    }
}

/// Takes one cell, which should be refused with this code.
pub fn take_none<S: CellStore>(rt: &impl Abort, store: &mut S, filling: Filling, code: u8)
    requires { S.Meaning.ok store.old }
    ensures { S.Meaning.ok store.new }
{
    assert_eq!(rt; store.take(filling.words(0)), Err(StoreFault { code }));
}

/// Gives one cell, which should be held with its own words.
pub fn give_one<S: CellStore>(rt: &impl Abort, store: &mut S, filling: Filling, number: u32)
    requires { S.Meaning.ok store.old }
    ensures { S.Meaning.ok store.new }
{
    assert_eq!(rt; store.read(number), Some(filling.words(number)));
    assert_eq!(rt; store.give(number), Some(()));
    assert_eq!(rt; store.read(number), None);
}

/// Gives cells, each of which should be held with its own words.
pub fn give_each<S: CellStore>(rt: &impl Abort, store: &mut S, filling: Filling, numbers: &[u32])
    requires { S.Meaning.ok store.old }
    ensures { S.Meaning.ok store.new }
{
    for number in numbers {
        give_one(rt, store, filling, *number);
    }
}

/// Reads and gives numbers of which none should be held.
pub fn give_none<S: CellStore>(rt: &impl Abort, store: &mut S, numbers: &[u32])
    requires { S.Meaning.ok store.old }
    ensures { S.Meaning.ok store.new }
{
    for number in numbers {
        assert_eq!(rt; store.read(*number), None);
        assert_eq!(rt; store.give(*number), None);
    }
}

/// Puts elements before lists over a quota that has room for two cells. Each should get its answer, and the last the fault of the
/// layer with this code.
pub fn prepend_twice<S: CellStore>(rt: &impl Abort, quota: &mut Quota<S>, code: u8)
    requires { QuotaOk S.Meaning.ok S.Meaning.cells quota.old }
    ensures { QuotaOk S.Meaning.ok S.Meaning.cells quota.new }
{
    assert_eq!(rt; prepend(quota, 7, 0), Ok(1));
    assert_eq!(rt; prepend(quota, 5, 2), Err(PrependFault::NoList(2)));
    assert_eq!(rt; prepend(quota, 5, 1), Ok(2));
    assert_eq!(rt;
        prepend(quota, 3, 2),
        Err(PrependFault::Store(StoreFault { code }))
    );
}

/// The two counts.
pub fn counts<S: CellStore>(rt: &impl Abort, store: &S, free: u32, held: u32)
    requires { S.Meaning.ok store.now }
{
    assert_eq!(rt; (store.free(), store.held()), (free, held));
}
