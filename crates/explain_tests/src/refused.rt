use crate::texts::{FLAT, MIXED};
use crate::{Bytes, Case, refuses, stays, tells};
use slip::Fault;
use std::alloc::{AllocError, Global};
use std::test::Fail;

// An object with a whole number of 64 bits and a list: whilst decoding field 'a': expected string got 1
const ROW: Case<'static> = Case {
    elements: "z {8 s0 j0 i1 s0 [7 ]6 }1",
    texts: "a",
    ends: &[1],
    list_rows: false,
    fault: Fault::WrongKind {
        node: 1,
        position: 3,
    },
    expected: "whilst decoding field 'a': expected string got 1",
};

#[test]
fn faults_without_a_text(rt: HostRuntime) -> Result<(), Fail> {
    for fault in [
        Fault::TornTape,
        Fault::BadSchema,
        Fault::BadPosition { index: 0 },
        Fault::Full { node: 0 },
        Fault::BareNull { child: 1, slot: 0 },
        Fault::Misfit {
            node: 1,
            position: 1,
        },
        Fault::NotThere,
    ] {
        assert!(rt; refuses(rt.alloc(), FLAT, ROW, fault, 256, Fault::NotThere)?);
    }
    Ok(())
}

#[test]
fn faults_at_no_node_or_position(rt: HostRuntime) -> Result<(), Fail> {
    for fault in [
        Fault::WrongKind {
            node: 2,
            position: 1,
        },
        Fault::WrongKind {
            node: 1,
            position: 4,
        },
        Fault::WrongKind {
            node: 1,
            position: 7,
        },
        Fault::WrongKind {
            node: 1,
            position: 8,
        },
        Fault::WrongKind {
            node: 1,
            position: 9,
        },
        Fault::UnknownColumn { node: 2, name: 2 },
        Fault::ExtraColumn { node: 0, entry: 9 },
        Fault::FewColumns { node: 9, row: 6 },
    ] {
        assert!(rt; refuses(rt.alloc(), FLAT, ROW, fault, 256, Fault::NotThere)?);
    }
    Ok(())
}

#[test]
fn faults_at_another_kind(rt: HostRuntime) -> Result<(), Fail> {
    for fault in [
        Fault::UnknownColumn { node: 1, name: 2 },
        Fault::UnknownColumn { node: 0, name: 3 },
        Fault::ExtraColumn { node: 1, entry: 2 },
        Fault::FewColumns { node: 1, row: 6 },
        Fault::FewColumns { node: 0, row: 1 },
        Fault::WrongCount { node: 0, row: 6 },
        Fault::WrongCount { node: 1, row: 1 },
    ] {
        assert!(rt; refuses(rt.alloc(), MIXED, ROW, fault, 256, Fault::NotThere)?);
    }
    Ok(())
}

#[test]
fn too_small_an_area(rt: HostRuntime) -> Result<(), Fail> {
    // "whilst decoding field 'a': expected string got 1"
    let fault = Fault::WrongKind {
        node: 1,
        position: 3,
    };
    for room in [0, 1, 20, 47] {
        assert!(rt; refuses(rt.alloc(), FLAT, ROW, fault, room, Fault::Full { node: 0 })?);
    }
    Ok(())
}

// A list of 70,000 strings that share one text of 65,536 bytes.
fn shared(heap: Global) -> Result<(Vec<u8>, Vec<u8>), AllocError> {
    let mut elements = Vec::new(heap);
    let mut texts = Vec::new(heap);
    for _ in 0..65_536u32 {
        texts.push(b'x')?;
    }
    elements.extend_from_slice(b"z\0\0\0\0\0\0\0[\0\0\0")?;
    elements.extend_from_slice(&70_002u32.to_le_bytes())?;
    for _ in 0..70_000u32 {
        elements.extend_from_slice(b"s\0\0\0\0\0\0\0")?;
    }
    elements.extend_from_slice(b"]\0\0\0\x01\0\0\0")?;
    Ok((elements, texts))
}

#[test]
fn a_text_longer_than_four_billion_bytes(rt: HostRuntime) -> Result<(), Fail> {
    let (elements, texts) = shared(rt.alloc())?;
    let bytes = Bytes {
        records: b"S\0\0\0\x01\0\0\0\0\0\0\0\0\0\0\0",
        names: b"",
        elements: elements.as_slice(),
        texts: texts.as_slice(),
        offsets: b"\0\0\0\0\0\0\x01\0",
    };
    let fault = Fault::WrongKind {
        node: 0,
        position: 1,
    };
    let mut area = [7u8; 300];
    assert!(rt; stays(bytes, fault, Fault::Full { node: 0 }, &mut area));
    Ok(())
}
