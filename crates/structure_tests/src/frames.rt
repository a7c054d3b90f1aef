//! Frames that go from stack to stack.
use ledger::Ledger;

#[test]
fn a_frame_moves_from_top_to_top(rt: HostRuntime) {
    let mut ledger = Ledger::new();
    assert_eq!(rt; ledger.move_top(0, 1), None);
    assert!(rt; ledger.start(3).is_ok());
    assert!(rt; ledger.start(3).is_err());
    assert_eq!(rt; ledger.move_top(0, 5), Some(1));
    assert_eq!(rt; ledger.move_top(0, 5), Some(2));
    assert_eq!(rt; ledger.move_top(5, 256), Some(2));
    assert_eq!(rt; ledger.move_top(5, 257), None);
    assert_eq!(rt; ledger.holding(5), 1);
    assert_eq!(rt; ledger.frames(), 3);
}

#[test]
fn the_bottom_frame_is_freed_last(rt: HostRuntime) {
    let mut ledger = Ledger::new();
    assert!(rt; ledger.start(4_096).is_ok());
    assert_eq!(rt; ledger.move_top(0, 7), Some(1));
    assert_eq!(rt; ledger.move_top(0, 7), Some(2));
    assert_eq!(rt; ledger.release(7), 2);
    assert_eq!(rt; ledger.release(7), 0);
    assert_eq!(rt; ledger.holding(0), 4_096);
    assert_eq!(rt; ledger.move_top(0, 7), Some(1));
}
