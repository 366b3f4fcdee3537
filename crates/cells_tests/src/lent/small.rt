// Free lists in a few cells, and what the caller finds in them afterwards.
use super::*;
use crate::calls::*;
use cells::store::CellStore;
use free_list::lent::LentCell;
use free_list::list::{FreeList, LIST_CODE};

#[test]
fn no_cell(rt: HostRuntime) {
    let mut lent: [LentCell; 0] = [];
    let mut list = FreeList::new(&mut lent);
    counts(&rt, &list, 0, 0);
    take_none(&rt, &mut list, LENT_FILLING, LIST_CODE);
    give_none(&rt, &mut list, &[0, 1]);
    list.clear();
    take_none(&rt, &mut list, LENT_FILLING, LIST_CODE);
}

#[test]
fn one_cell(rt: HostRuntime) {
    let mut lent = [LENT; 1];
    let mut list = FreeList::new(&mut lent);
    counts(&rt, &list, 1, 0);
    give_none(&rt, &mut list, &[1]);
    take_one(&rt, &mut list, LENT_FILLING, 1);
    counts(&rt, &list, 0, 1);
    take_none(&rt, &mut list, LENT_FILLING, LIST_CODE);
    give_none(&rt, &mut list, &[0, 2, 65_537, u32::MAX]);
    give_all(&rt, &mut list, Order::Rising, 1);
    counts(&rt, &list, 1, 0);
    take_one(&rt, &mut list, LENT_FILLING, 1);
    assert_eq!(rt; lent, [holding(1)]);
}

#[test]
fn two_cells(rt: HostRuntime) {
    let mut lent = [LENT; 2];
    let mut list = FreeList::new(&mut lent);
    counts(&rt, &list, 2, 0);
    take_one(&rt, &mut list, LENT_FILLING, 1);
    give_none(&rt, &mut list, &[2, 0, 3]);
    counts(&rt, &list, 1, 1);
    take_one(&rt, &mut list, LENT_FILLING, 2);
    take_none(&rt, &mut list, LENT_FILLING, LIST_CODE);
    assert_eq!(rt; list.give(1), Some(()));
    assert_eq!(rt; list.give(2), Some(()));
    take_one(&rt, &mut list, LENT_FILLING, 2);
    assert_eq!(rt; lent, [given(1, 0), holding(2)]);
}

#[test]
fn making_chains_in_rising_order(rt: HostRuntime) {
    let mut lent = [LENT; 3];
    let list = FreeList::new(&mut lent);
    counts(&rt, &list, 3, 0);
    assert_eq!(rt; lent, [chained(2), chained(3), chained(0)]);
}

#[test]
fn give_writes_one_word(rt: HostRuntime) {
    let mut lent = [LENT; 3];
    let mut list = FreeList::new(&mut lent);
    take_all(&rt, &mut list, Order::Falling, 3);
    assert_eq!(rt; list.give(2), Some(()));
    assert_eq!(rt; list.give(1), Some(()));
    assert_eq!(rt; lent, [given(1, 2), given(2, 0), holding(3)]);
}

#[test]
fn clear_chains_in_rising_order(rt: HostRuntime) {
    let mut lent = [LENT; 3];
    let mut list = FreeList::new(&mut lent);
    take_all(&rt, &mut list, Order::Falling, 3);
    assert_eq!(rt; list.give(2), Some(()));
    list.clear();
    counts(&rt, &list, 3, 0);
    assert_eq!(rt; lent, [given(1, 2), given(2, 3), given(3, 0)]);
}

#[test]
fn lent_again(rt: HostRuntime) {
    let mut lent = [LENT; 3];
    let mut first = FreeList::new(&mut lent);
    take_all(&rt, &mut first, Order::Falling, 3);
    let mut second = FreeList::new(&mut lent);
    counts(&rt, &second, 3, 0);
    take_one(&rt, &mut second, LENT_FILLING, 1);
    assert_eq!(rt; lent, [holding(1), given(2, 3), given(3, 0)]);
}
