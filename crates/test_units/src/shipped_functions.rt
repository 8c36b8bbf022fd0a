use shipped_kit::shipped_entry;
use tbl_outside::Validator;

#[test]
fn application_2_has_2_and_3(rt: HostRuntime) {
    let mut first = shipped_entry(2);
    let mut last = shipped_entry(3);
    let verdicts = [first.check.validate(&[0]), last.check.validate(&[1, 0])];
    assert!(rt; first.app == 2 && last.app == 2 && verdicts == [-5, -7]);
}
