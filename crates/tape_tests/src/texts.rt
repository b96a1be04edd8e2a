// Texts, and the offsets that cut them.
use crate::opens;
use std::test::Fail;

// a, é, € and 😀 take 1, 2, 3 and 4 bytes.
const ALL: &[u8] = b"a\xc3\xa9\xe2\x82\xac\xf0\x9f\x98\x80";

#[test]
fn every_width(rt: HostRuntime) -> Result<(), Fail> {
    let heap = rt.alloc();
    assert!(rt; opens(heap, &[(b'z', 0), (b's', 3)], ALL, &[0, 1, 3, 6, 10])?);
    assert!(rt; opens(heap, &[(b'z', 0), (b's', 0)], ALL, &[3, 6])?);
    assert!(rt; opens(heap, &[(b'z', 0), (b's', 0)], ALL, &[10, 10])?);
    Ok(())
}

#[test]
fn split_characters(rt: HostRuntime) -> Result<(), Fail> {
    let heap = rt.alloc();
    for k in [2, 4, 5, 7, 8, 9] {
        assert!(rt; !opens(heap, &[(b'z', 0)], ALL, &[0, k])?);
    }
    Ok(())
}

#[test]
fn wrong_offsets(rt: HostRuntime) -> Result<(), Fail> {
    let heap = rt.alloc();
    assert!(rt; opens(heap, &[(b'z', 0)], b"abc", &[0, 1, 1, 3])?);
    assert!(rt; !opens(heap, &[(b'z', 0)], b"abc", &[0, 2, 1, 3])?);
    assert!(rt; !opens(heap, &[(b'z', 0)], b"abc", &[0, 1, 2, 4])?);
    assert!(rt; !opens(heap, &[(b'z', 0)], b"abc", &[4294967295])?);
    assert!(rt; !opens(heap, &[(b'z', 0)], b"abc", &[3, 0])?);
    Ok(())
}

#[test]
fn not_utf8(rt: HostRuntime) -> Result<(), Fail> {
    let heap = rt.alloc();
    assert!(rt; !opens(heap, &[(b'z', 0)], b"\xff", &[])?);
    assert!(rt; !opens(heap, &[(b'z', 0)], b"a\xc3", &[0, 1])?);
    assert!(rt; !opens(heap, &[(b'z', 0)], b"\xed\xa0\x80", &[0, 3])?);
    Ok(())
}
