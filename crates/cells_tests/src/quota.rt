// Quotas, over the pool and over each other.
use super::calls::*;
use cells::pool::{POOL_CODE, Pool};
use cells::quota::{QUOTA_CODE, Quota};
use cells::store::CellStore;

#[test]
fn limit_0_is_the_capacity_below(rt: HostRuntime) {
    let mut quota = Quota::new(Pool::new(), 0);
    counts(&rt, &quota, 1024, 0);
    take_up_to(&rt, &mut quota, NUMBERS, 1024);
    take_none(&rt, &mut quota, NUMBERS, QUOTA_CODE);
    give_each(&rt, &mut quota, NUMBERS, &[7]);
    take_each(&rt, &mut quota, NUMBERS, &[7]);
}

#[test]
fn limit_1_holds_one_cell(rt: HostRuntime) {
    let mut quota = Quota::new(Pool::new(), 1);
    counts(&rt, &quota, 1, 0);
    take_each(&rt, &mut quota, NUMBERS, &[1]);
    take_none(&rt, &mut quota, NUMBERS, QUOTA_CODE);
    counts(&rt, &quota, 0, 1);
    give_none(&rt, &mut quota, &[0, 2, 1025, u32::MAX]);
    give_each(&rt, &mut quota, NUMBERS, &[1]);
    take_each(&rt, &mut quota, NUMBERS, &[1]);
}

#[test]
fn a_limit_under_the_number_held_counts_as_that_number(rt: HostRuntime) {
    let mut pool = Pool::new();
    take_up_to(&rt, &mut pool, NUMBERS, 5);
    let mut quota = Quota::new(pool, 3);
    counts(&rt, &quota, 0, 5);
    take_none(&rt, &mut quota, NUMBERS, QUOTA_CODE);
    give_each(&rt, &mut quota, NUMBERS, &[4, 2]);
    counts(&rt, &quota, 2, 3);
    take_each(&rt, &mut quota, NUMBERS, &[2, 4]);
    take_none(&rt, &mut quota, NUMBERS, QUOTA_CODE);
}

#[test]
fn a_refusal_from_below_passes_whole(rt: HostRuntime) {
    let mut quota = Quota::new(Quota::new(Pool::new(), 2000), u32::MAX);
    counts(&rt, &quota, 1024, 0);
    take_up_to(&rt, &mut quota, NUMBERS, 1024);
    take_none(&rt, &mut quota, NUMBERS, POOL_CODE);
}

#[test]
fn the_smaller_limit_holds_in_a_pile(rt: HostRuntime) {
    let mut wide = Quota::new(Quota::new(Pool::new(), 2), 3);
    take_up_to(&rt, &mut wide, NUMBERS, 2);
    take_none(&rt, &mut wide, NUMBERS, QUOTA_CODE);
    let mut narrow = Quota::new(wide, 1);
    counts(&rt, &narrow, 0, 2);
    narrow.clear();
    counts(&rt, &narrow, 2, 0);
    take_up_to(&rt, &mut narrow, NUMBERS, 2);
}

/// Two quotas in a struct that is generic over the store below them.
#[derive(Drop)]
struct Pile<S: CellStore> {
    quota: Quota<Quota<S>>,
}

#[test]
fn a_struct_over_any_store_has_a_pile_over_it(rt: HostRuntime) {
    let mut pile = Pile {
        quota: Quota::new(Quota::new(Pool::new(), 2), 1),
    };
    counts(&rt, &pile.quota, 1, 0);
    take_up_to(&rt, &mut pile.quota, NUMBERS, 1);
    take_none(&rt, &mut pile.quota, NUMBERS, QUOTA_CODE);
}

#[test]
fn a_fault_is_taken_in_by_the_layer_above(rt: HostRuntime) {
    let mut quota = Quota::new(Pool::new(), 2);
    prepend_twice(&rt, &mut quota, QUOTA_CODE);
}
