// The pool, to its last cell.
use super::calls::*;
use cells::pool::{POOL_CODE, Pool};
use cells::store::CellStore;

/// Numbers that no pool has.
const FOREIGN: [u32; 4] = [0, 1025, 65_536, u32::MAX];

#[test]
fn fills_to_its_last_cell(rt: HostRuntime) {
    let mut pool = Pool::new();
    counts(&rt, &pool, 1024, 0);
    take_up_to(&rt, &mut pool, NUMBERS, 1024);
    take_none(&rt, &mut pool, NUMBERS, POOL_CODE);
    counts(&rt, &pool, 0, 1024);
    give_none(&rt, &mut pool, &FOREIGN);
    counts(&rt, &pool, 0, 1024);
}

#[test]
fn takes_the_lowest_again(rt: HostRuntime) {
    let mut pool = Pool::new();
    take_up_to(&rt, &mut pool, NUMBERS, 1024);
    give_each(
        &rt,
        &mut pool,
        NUMBERS,
        &[1024, 33, 1, 512, 32, 1000, 64, 65],
    );
    give_none(&rt, &mut pool, &[512, 1, 1024]);
    counts(&rt, &pool, 8, 1016);
    take_each(
        &rt,
        &mut pool,
        NUMBERS,
        &[1, 32, 33, 64, 65, 512, 1000, 1024],
    );
    take_none(&rt, &mut pool, NUMBERS, POOL_CODE);
}

#[test]
fn clears(rt: HostRuntime) {
    let mut pool = Pool::new();
    give_none(&rt, &mut pool, &FOREIGN);
    take_up_to(&rt, &mut pool, NUMBERS, 40);
    pool.clear();
    counts(&rt, &pool, 1024, 0);
    give_none(&rt, &mut pool, &[1, 2, 40]);
    take_up_to(&rt, &mut pool, NUMBERS, 3);
}
