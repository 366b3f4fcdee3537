// A free list in more cells than there are numbers.
use super::*;
use crate::calls::*;
use cells::store::CellStore;
use free_list::list::{FreeList, LIST_CODE};
use std::test::Fail;

/// How many cells are lent.
const MANY: usize = 70_000;

/// The highest number.
const LAST: u16 = 65_535;

#[test]
fn every_cell_in_three_orders(rt: HostRuntime) -> Result<(), Fail> {
    let mut lent = vec![in rt.alloc(); LENT; MANY]?;
    let mut list = FreeList::new(lent.as_mut_slice());
    take_all(&rt, &mut list, Order::Falling, LAST);
    counts(&rt, &list, 0, 65_535);
    take_none(&rt, &mut list, LENT_FILLING, LIST_CODE);
    give_all(&rt, &mut list, Order::Falling, LAST);
    take_all(&rt, &mut list, Order::Falling, LAST);
    give_all(&rt, &mut list, Order::Rising, LAST);
    take_all(&rt, &mut list, Order::Rising, LAST);
    give_all(&rt, &mut list, Order::OddFirst, LAST);
    counts(&rt, &list, 65_535, 0);
    take_all(&rt, &mut list, Order::OddFirst, LAST);
    take_none(&rt, &mut list, LENT_FILLING, LIST_CODE);
    Ok(())
}

#[test]
fn cells_beyond_the_capacity_stay(rt: HostRuntime) -> Result<(), Fail> {
    let mut lent = vec![in rt.alloc(); LENT; MANY]?;
    let mut list = FreeList::new(lent.as_mut_slice());
    counts(&rt, &list, 65_535, 0);
    give_none(&rt, &mut list, &[65_535, 65_536, 70_000]);
    take_all(&rt, &mut list, Order::Falling, LAST);
    take_none(&rt, &mut list, LENT_FILLING, LIST_CODE);
    give_none(&rt, &mut list, &[65_536]);
    list.clear();
    assert!(rt; lent.len() == MANY);
    assert_eq!(rt; lent[0], given(1, 2));
    assert_eq!(rt; lent[65_534], given(65_535, 0));
    assert_eq!(rt; lent[65_535], LENT);
    assert_eq!(rt; lent[69_999], LENT);
    Ok(())
}
