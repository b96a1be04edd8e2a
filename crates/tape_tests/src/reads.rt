// What is read from an opened tape.
use crate::{elements, holds, offsets, shows, stands};
use std::test::Fail;
use tape::Tape;
use tape::element::TapeElement;

// {"a": [true, -8589934585], "b": 12}
const RECORDS: [(u8, u32); 11] = [
    (b'z', 0),
    (b'{', 10),
    (b's', 0),
    (b'[', 7),
    (b't', 0),
    (b'j', 4294967294),
    (b'i', 7),
    (b']', 3),
    (b's', 1),
    (b'n', 2),
    (b'}', 1),
];

const ELEMENTS: [(u32, TapeElement, u32); 8] = [
    (0, TapeElement::Null, 1),
    (1, TapeElement::StartObject(10), 11),
    (2, TapeElement::String(0), 3),
    (3, TapeElement::StartList(7), 8),
    (4, TapeElement::True, 5),
    (5, TapeElement::I64(-2), 7),
    (6, TapeElement::I32(7), 7),
    (10, TapeElement::EndObject(1), 11),
];

fn all_read<'a>(elements: &'a [u8], texts: &'a [u8], offsets: &'a [u8]) -> bool {
    let Ok(tape) = Tape::open(elements, texts, offsets) else {
        return false;
    };
    for row in &ELEMENTS {
        if !stands(tape, row.0, row.1, row.2) {
            return false;
        }
    }
    shows(tape, 2, b"a")
        && shows(tape, 9, b"12")
        && holds(tape, 5, -8589934585)
        && holds(tape, 6, 7)
}

fn all_positions<'a>(elements: &'a [u8], texts: &'a [u8], offsets: &'a [u8]) -> bool {
    let Ok(tape) = Tape::open(elements, texts, offsets) else {
        return false;
    };
    for p in [6, 7, 10, 11, 4294967295] {
        if tape.is_position(p) {
            return false;
        }
    }
    for p in [0, 1, 2, 3, 4, 5, 8, 9] {
        if !tape.is_position(p) {
            return false;
        }
    }
    true
}

#[test]
fn elements_are_read(rt: HostRuntime) -> Result<(), Fail> {
    let es = elements(rt.alloc(), &RECORDS)?;
    let os = offsets(rt.alloc(), &[0, 1, 2, 4])?;
    assert!(rt; all_read(&es, b"ab12", &os));
    Ok(())
}

#[test]
fn positions_are_known(rt: HostRuntime) -> Result<(), Fail> {
    let es = elements(rt.alloc(), &RECORDS)?;
    let os = offsets(rt.alloc(), &[0, 1, 2, 4])?;
    assert!(rt; all_positions(&es, b"ab12", &os));
    Ok(())
}
