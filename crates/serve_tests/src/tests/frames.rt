//! What some bytes begin with.

use fuse_wire::{Framed, frame};
use std::test::Fail;

#[test]
fn lengths_of_messages(rt: HostRuntime) -> Result<(), Fail> {
    let mut bytes = [0u8; 41];
    bytes[0] = 40;
    for (len, framed) in [
        (3, Framed::More),
        (39, Framed::More),
        (40, Framed::Whole(40)),
        (41, Framed::Whole(40)),
    ] {
        assert!(rt; frame(&bytes[..len]) == framed, "{len}");
    }
    for (said, framed) in [
        ([39, 0, 0, 0], Framed::Bad(39)),
        ([0, 16, 16, 0], Framed::More),
        ([1, 16, 16, 0], Framed::Bad(1_052_673)),
    ] {
        assert!(rt; frame(&said) == framed, "{said:?}");
    }
    Ok(())
}
