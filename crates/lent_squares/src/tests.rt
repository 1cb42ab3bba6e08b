use super::*;
use std::test::*;

#[test]
fn two_squares(rt: HostRuntime) -> Result<(), Fail> {
    assert!(rt; squares(&rt, 3, 5) == Some((9, 25)));
    Ok(())
}
