// Quotas over a free list.
use super::*;
use crate::calls::*;
use cells::quota::{QUOTA_CODE, Quota};
use cells::store::CellStore;
use free_list::list::{FreeList, LIST_CODE};

#[test]
fn a_limit_under_the_capacity(rt: HostRuntime) {
    let mut lent = [LENT; 3];
    let mut quota = Quota::new(FreeList::new(&mut lent), 2);
    counts(&rt, &quota, 2, 0);
    take_one(&rt, &mut quota, LENT_FILLING, 1);
    take_one(&rt, &mut quota, LENT_FILLING, 2);
    take_none(&rt, &mut quota, LENT_FILLING, QUOTA_CODE);
    give_none(&rt, &mut quota, &[3]);
    assert_eq!(rt; quota.give(1), Some(()));
    take_one(&rt, &mut quota, LENT_FILLING, 1);
    assert_eq!(rt; lent, [holding(1), holding(2), chained(0)]);
}

#[test]
fn a_refusal_from_below_passes_whole(rt: HostRuntime) {
    let mut lent = [LENT; 1];
    let mut quota = Quota::new(Quota::new(FreeList::new(&mut lent), 0), 9);
    take_one(&rt, &mut quota, LENT_FILLING, 1);
    take_none(&rt, &mut quota, LENT_FILLING, QUOTA_CODE);
    let mut wide = Quota::new(FreeList::new(&mut lent), 9);
    counts(&rt, &wide, 1, 0);
    take_one(&rt, &mut wide, LENT_FILLING, 1);
    take_none(&rt, &mut wide, LENT_FILLING, LIST_CODE);
}

#[test]
fn a_list_of_nodes_in_lent_cells(rt: HostRuntime) {
    let mut lent = [LENT; 2];
    let mut quota = Quota::new(FreeList::new(&mut lent), 5);
    prepend_twice(&rt, &mut quota, LIST_CODE);
    quota.clear();
    counts(&rt, &quota, 2, 0);
}
