use shipped_kit::FirstByte;
use std::test::Fail;
use tbl_outside::KitEntry;
use validation::{Kit, PendFault, Pending};

#[test]
fn a_function_is_asked_and_dropped(rt: HostRuntime) -> Result<(), Fail> {
    let first = KitEntry {
        app: 1,
        check: FirstByte::make(),
    };
    let second = KitEntry {
        app: 2,
        check: FirstByte::make(),
    };
    let mut kit = Kit::make(rt.alloc(), vec![in rt.alloc(); first, second]?)?;
    let verdict = kit.judge(Some(0), &[0]);
    kit.drop_app(1);
    assert!(rt; verdict == Some(-5) && !kit.may_use(1, 0) && kit.may_use(2, 1));
    Ok(())
}

/// Whether three validations are pending: of the active image of row 3, of its load, and of the active image of row 4.
fn are_pending(pending: &Pending) -> [bool; 3] {
    [
        pending.has(3, true),
        pending.has(3, false),
        pending.has(4, true),
    ]
}

#[test]
fn pending_validations_are_a_list(rt: HostRuntime) {
    let mut pending = Pending::make();
    let first = pending.request(3, true);
    let again = pending.request(3, true);
    let load = pending.request(3, false);
    pending.drop_pair(3, true);
    let without_pair = are_pending(&pending);
    let other = pending.request(4, true);
    pending.drop_row(3);
    let without_row = are_pending(&pending);
    pending.clear();
    assert_eq!(rt;
        [first, again, load, other],
        [Ok(()), Err(PendFault::Twice), Ok(()), Ok(())]
    );
    assert_eq!(rt;
        [without_pair, without_row, are_pending(&pending)],
        [[false, true, false], [false, false, true], [false; 3]]
    );
}
