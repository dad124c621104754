// The call that may run out of memory succeeds on a short list.
use super::*;
use std::test::Fail;

#[test]
fn clones_succeed(rt: HostRuntime) -> Result<(), Fail> {
    let list: Bounded<u8, 4> = Bounded::from_slice(0, b"abc")?;
    assert_eq!(rt; list.clones()?.as_slice(), b"abc".as_slice());
    Ok(())
}
