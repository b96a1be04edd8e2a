// How deep and how long a tape may be.
use crate::{deep, is_tape, push};
use std::test::Fail;

#[test]
fn brackets(rt: HostRuntime) -> Result<(), Fail> {
    let heap = rt.alloc();
    let most = deep(heap, 64)?;
    assert!(rt; is_tape(&most, b"", b""));
    let more = deep(heap, 65)?;
    assert!(rt; !is_tape(&more, b"", b""));
    Ok(())
}

// 65,536 elements: each is read a fixed number of times.
#[test]
fn long(rt: HostRuntime) -> Result<(), Fail> {
    let mut bytes = Vec::new(rt.alloc());
    push(&mut bytes, b'z', 0)?;
    push(&mut bytes, b'[', 65535)?;
    for _ in 2..65535 {
        push(&mut bytes, b't', 0)?;
    }
    push(&mut bytes, b']', 1)?;
    assert!(rt; bytes.len() == 524288);
    assert!(rt; is_tape(&bytes, b"", b""));
    Ok(())
}
