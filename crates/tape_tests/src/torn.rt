// Each way to be torn.
use crate::{elements, is_tape, offsets, opens};
use std::test::Fail;

// The smallest tape, and what is less.
#[test]
fn smallest(rt: HostRuntime) -> Result<(), Fail> {
    let heap = rt.alloc();
    assert!(rt; opens(heap, &[(b'z', 0)], b"", &[])?);
    assert!(rt; !opens(heap, &[], b"", &[])?);
    assert!(rt; !opens(heap, &[(b't', 0)], b"", &[])?);
    assert!(rt; !opens(heap, &[(b'z', 1)], b"", &[])?);
    Ok(())
}

// One value of each letter.
#[test]
fn each_letter(rt: HostRuntime) -> Result<(), Fail> {
    let heap = rt.alloc();
    assert!(rt; opens(heap, &[(b'z', 0), (b's', 0)], b"hi", &[0, 2])?);
    assert!(rt; opens(heap, &[(b'z', 0), (b'n', 0)], b"12", &[0, 2])?);
    assert!(rt; opens(heap, &[(b'z', 0), (b'i', 4294967295)], b"", &[])?);
    assert!(rt; opens(heap, &[(b'z', 0), (b'j', 4294967295), (b'i', 7)], b"", &[])?);
    assert!(rt; opens(heap, &[(b'z', 0), (b't', 0)], b"", &[])?);
    assert!(rt; opens(heap, &[(b'z', 0), (b'f', 0)], b"", &[])?);
    assert!(rt; opens(heap, &[(b'z', 0), (b'z', 0)], b"", &[])?);
    assert!(rt; opens(heap, &[(b'z', 0), (b'[', 2), (b']', 1)], b"", &[])?);
    assert!(rt; opens(heap, &[(b'z', 0), (b'{', 2), (b'}', 1)], b"", &[])?);
    assert!(rt; !opens(heap, &[(b'z', 0), (b'd', 0)], b"", &[])?);
    assert!(rt; !opens(heap, &[(b'z', 0), (0, 0)], b"", &[])?);
    Ok(())
}

// Numbers that a letter does not have.
#[test]
fn wrong_numbers(rt: HostRuntime) -> Result<(), Fail> {
    let heap = rt.alloc();
    assert!(rt; !opens(heap, &[(b'z', 0), (b't', 1)], b"", &[])?);
    assert!(rt; !opens(heap, &[(b'z', 0), (b'f', 1)], b"", &[])?);
    assert!(rt; !opens(heap, &[(b'z', 0), (b'z', 1)], b"", &[])?);
    assert!(rt; !opens(heap, &[(b'z', 0), (b's', 1)], b"hi", &[0, 2])?);
    assert!(rt; !opens(heap, &[(b'z', 0), (b's', 4294967295)], b"hi", &[0, 2])?);
    assert!(rt; !opens(heap, &[(b'z', 0), (b'n', 0)], b"hi", &[0])?);
    assert!(rt; !opens(heap, &[(b'z', 0), (b's', 0)], b"hi", &[])?);
    Ok(())
}

// A 'j' without its 'i'.
#[test]
fn half_numbers(rt: HostRuntime) -> Result<(), Fail> {
    let heap = rt.alloc();
    assert!(rt; !opens(heap, &[(b'z', 0), (b'j', 0)], b"", &[])?);
    assert!(rt; !opens(heap, &[(b'z', 0), (b'j', 0), (b't', 0)], b"", &[])?);
    assert!(rt;
        !opens(
            heap,
            &[(b'z', 0), (b'j', 0), (b'j', 0), (b'i', 0)],
            b"",
            &[],
        )?
    );
    Ok(())
}

// Brackets that are no partners.
#[test]
fn wrong_brackets(rt: HostRuntime) -> Result<(), Fail> {
    let heap = rt.alloc();
    assert!(rt; !opens(heap, &[(b'z', 0), (b'[', 2), (b'}', 1)], b"", &[])?);
    assert!(rt; !opens(heap, &[(b'z', 0), (b'[', 3), (b']', 1)], b"", &[])?);
    assert!(rt; !opens(heap, &[(b'z', 0), (b'[', 2), (b']', 0)], b"", &[])?);
    assert!(rt; !opens(heap, &[(b'z', 0), (b'[', 2)], b"", &[])?);
    assert!(rt; !opens(heap, &[(b'z', 0), (b']', 1)], b"", &[])?);
    assert!(rt; !opens(heap, &[(b'z', 0), (b'{', 2), (b']', 1)], b"", &[])?);
    assert!(rt;
        !opens(
            heap,
            &[(b'z', 0), (b'[', 3), (b'[', 4), (b']', 1), (b']', 2)],
            b"",
            &[],
        )?
    );
    Ok(())
}

// Objects whose names and values do not take turns.
#[test]
fn wrong_pairs(rt: HostRuntime) -> Result<(), Fail> {
    let heap = rt.alloc();
    assert!(rt;
        opens(
            heap,
            &[(b'z', 0), (b'{', 4), (b's', 0), (b't', 0), (b'}', 1)],
            b"a",
            &[0, 1],
        )?
    );
    assert!(rt;
        !opens(
            heap,
            &[(b'z', 0), (b'{', 3), (b's', 0), (b'}', 1)],
            b"a",
            &[0, 1],
        )?
    );
    assert!(rt;
        !opens(
            heap,
            &[(b'z', 0), (b'{', 4), (b'n', 0), (b't', 0), (b'}', 1)],
            b"1",
            &[0, 1],
        )?
    );
    assert!(rt;
        !opens(
            heap,
            &[(b'z', 0), (b'{', 4), (b's', 1), (b't', 0), (b'}', 1)],
            b"a",
            &[0, 1],
        )?
    );
    Ok(())
}

// Lengths that are no whole number of elements or offsets.
#[test]
fn wrong_lengths(rt: HostRuntime) -> Result<(), Fail> {
    let heap = rt.alloc();
    let es = elements(heap, &[(b'z', 0), (b't', 0)])?;
    assert!(rt; es.len() == 16);
    assert!(rt; is_tape(&es, b"", b""));
    assert!(rt; !is_tape(&es[..15], b"", b""));
    let os = offsets(heap, &[0, 0])?;
    assert!(rt; os.len() == 8);
    assert!(rt; is_tape(&es, b"", &os));
    assert!(rt; !is_tape(&es, b"", &os[..7]));
    Ok(())
}

// Bytes 1 to 3 of an element that are not zero.
#[test]
fn not_bare(rt: HostRuntime) -> Result<(), Fail> {
    for k in 1..4 {
        let mut es = elements(rt.alloc(), &[(b'z', 0), (b't', 0)])?;
        assert!(rt; es.len() == 16);
        es[8 + k] = 1;
        assert!(rt; !is_tape(&es, b"", b""));
    }
    Ok(())
}
