// An engine over a quota as a part of a larger struct.
use cells::pool::Pool;
use cells::quota::Quota;
use cells::store::{CellStore, Meaning};
use engine::{Engine, EngineFault};
use inner::State;

/// A sheet that needs no items: its function 0 gives a list of one number, 5.
const ONE_NUMBER: [u8; 31] = [
    0x11, 0, 0, 0, // type 1: a list of Number
    0x20, 0, 0xFF, 0xFF, 0xFF, 0xFF, 1, 0, 1, 0, 0, // function 0, for one cell
    0x30, 0, 0, 0, 0, 5, // slot 0 is 5
    0x32, 1, 1, // slot 1 is empty
    0x33, 1, 1, 0, 1, // slot 1 is 5 before slot 1
    0x40, 1, // the answer is slot 1
];

/// What has an engine over a store of its own, whichever it is.
#[derive(Drop)]
struct Printer<S: CellStore> {
    engine: Engine<Quota<S>>,
}

#[test]
fn a_struct_over_any_store_has_an_engine_over_a_quota(rt: HostRuntime) {
    let mut printer = Printer {
        engine: Engine::new(Quota::new(Pool::new(), 1)),
    };
    assert_eq!(rt; printer.engine.load(&ONE_NUMBER), Ok(()));
    assert_eq!(rt; printer.engine.price(), 1);
    assert_eq!(rt; printer.engine.fund(), Ok(()));
    assert_eq!(rt;
        printer.engine.load(&ONE_NUMBER),
        Err(EngineFault::Excluded)
    );
    assert_eq!(rt; printer.engine.advance(10), Ok((4, State::Done)));
    assert_eq!(rt; (printer.engine.free(), printer.engine.held()), (0, 1));
    assert_eq!(rt; printer.engine.pull(), Ok(Some(5)));
    assert_eq!(rt; printer.engine.pull(), Ok(None));
    assert_eq!(rt; (printer.engine.free(), printer.engine.held()), (1, 0));
}
