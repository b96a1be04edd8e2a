use crate::{Case, Nodes, tells};
use slip::Fault;
use std::test::Fail;

// {a: text}
pub const FLAT: Nodes<'static> = Nodes {
    records: &[(b'S', 2, 1, 0), (b'T', 2, 0, 1)],
    names: b"a",
};

// {s: {l: list of {b: boolean, x: custom}}}
pub const DEEP: Nodes<'static> = Nodes {
    records: &[
        (b'S', 6, 1, 0),
        (b'S', 6, 1, 1),
        (b'L', 6, 0, 2),
        (b'S', 6, 2, 6),
        (b'B', 5, 0, 7),
        (b'X', 6, 0, 8),
    ],
    names: b"slitembx",
};

// {f: three nulls, m: map of text to list-views of text}
pub const MIXED: Nodes<'static> = Nodes {
    records: &[
        (b'S', 7, 2, 0),
        (b'F', 3, 3, 1),
        (b'N', 3, 0, 5),
        (b'M', 7, 0, 6),
        (b'T', 5, 0, 7),
        (b'V', 7, 0, 8),
        (b'T', 7, 0, 12),
    ],
    names: b"fitemmkvitem",
};

const FLAT_CASES: [Case<'static>; 9] = [
    Case {
        elements: "z {4 s0 i4294967289 }1",
        texts: "a",
        ends: &[1],
        list_rows: false,
        fault: Fault::WrongKind {
            node: 1,
            position: 3,
        },
        expected: "whilst decoding field 'a': expected string got -7",
    },
    Case {
        elements: "z [13 s0 n1 t f z j4294967295 i0 [10 ]9 {12 }11 ]1",
        texts: "x1.50",
        ends: &[1, 5],
        list_rows: false,
        fault: Fault::WrongKind {
            node: 0,
            position: 1,
        },
        expected: "expected { got [\"x\", 1.50, true, false, null, -4294967296, [], {}]",
    },
    Case {
        elements: "z {18 s0 {17 s1 [11 i1 [9 s2 ]7 z ]5 s3 {14 }13 s4 t }3 }1",
        texts: "akq\"ql mn",
        ends: &[1, 2, 5, 8, 9],
        list_rows: false,
        fault: Fault::WrongKind {
            node: 1,
            position: 3,
        },
        expected: "whilst decoding field 'a': expected string got {\"k\": [1, [\"q\"q\"], null]\"l m\": {}\"n\": true}",
    },
    Case {
        elements: "z z",
        texts: "",
        ends: &[],
        list_rows: false,
        fault: Fault::WrongKind {
            node: 0,
            position: 0,
        },
        expected: "expected { got null",
    },
    Case {
        elements: "z {4 s0 s1 }1",
        texts: "ax",
        ends: &[1, 2],
        list_rows: true,
        fault: Fault::WrongKind {
            node: 0,
            position: 1,
        },
        expected: "expected [ got {\"a\": \"x\"}",
    },
    Case {
        elements: "z {4 s0 s1 }1",
        texts: "b c'dx",
        ends: &[5, 6],
        list_rows: false,
        fault: Fault::UnknownColumn { node: 0, name: 2 },
        expected: "column 'b c'd' missing from schema",
    },
    Case {
        elements: "z [4 s0 s1 ]1",
        texts: "xy",
        ends: &[1, 2],
        list_rows: true,
        fault: Fault::ExtraColumn { node: 0, entry: 3 },
        expected: "found extra columns for 1 fields",
    },
    Case {
        elements: "z [2 ]1",
        texts: "",
        ends: &[],
        list_rows: true,
        fault: Fault::FewColumns { node: 0, row: 1 },
        expected: "found 0 columns for 1 fields",
    },
    Case {
        elements: "z {12 s0 [11 j2147483648 i0 j2147483647 i4294967295 i2147483648 j0 i0 ]3 }1",
        texts: "a",
        ends: &[1],
        list_rows: false,
        fault: Fault::WrongKind {
            node: 1,
            position: 3,
        },
        expected: "whilst decoding field 'a': expected string got [-9223372036854775808, 9223372036854775807, -2147483648, 0]",
    },
];

const DEEP_CASES: [Case<'static>; 6] = [
    Case {
        elements: "z {12 s0 {11 s1 [10 {9 s2 s3 }6 ]5 }3 }1",
        texts: "slbno",
        ends: &[1, 2, 3, 5],
        list_rows: false,
        fault: Fault::WrongKind {
            node: 4,
            position: 8,
        },
        expected: "whilst decoding field 's': whilst decoding field 'l': whilst decoding field 'b': expected boolean got \"no\"",
    },
    Case {
        elements: "z {12 s0 {11 s1 [10 {9 s2 t }6 ]5 }3 }1",
        texts: "slx",
        ends: &[1, 2, 3],
        list_rows: false,
        fault: Fault::WrongKind {
            node: 5,
            position: 8,
        },
        expected: "whilst decoding field 's': whilst decoding field 'l': whilst decoding field 'x': expected number got true",
    },
    Case {
        elements: "z {9 s0 {8 s1 [7 i5 ]5 }3 }1",
        texts: "sl",
        ends: &[1, 2],
        list_rows: false,
        fault: Fault::WrongKind {
            node: 3,
            position: 6,
        },
        expected: "whilst decoding field 's': whilst decoding field 'l': expected { got 5",
    },
    Case {
        elements: "z {14 s0 {13 s1 [12 {11 s2 t s3 i1 }6 ]5 }3 }1",
        texts: "slbzz",
        ends: &[1, 2, 3, 5],
        list_rows: false,
        fault: Fault::UnknownColumn { node: 3, name: 9 },
        expected: "whilst decoding field 's': whilst decoding field 'l': column 'zz' missing from schema",
    },
    Case {
        elements: "z [9 [8 [7 [6 t ]4 ]3 ]2 ]1",
        texts: "",
        ends: &[],
        list_rows: true,
        fault: Fault::FewColumns { node: 3, row: 4 },
        expected: "whilst decoding field 's': whilst decoding field 'l': found 1 columns for 2 fields",
    },
    Case {
        elements: "z [11 [10 [9 [8 t i1 z ]4 ]3 ]2 ]1",
        texts: "",
        ends: &[],
        list_rows: true,
        fault: Fault::ExtraColumn { node: 3, entry: 7 },
        expected: "whilst decoding field 's': whilst decoding field 'l': found extra columns for 2 fields",
    },
];

const MIXED_CASES: [Case<'static>; 6] = [
    Case {
        elements: "z {7 s0 [6 z z ]3 }1",
        texts: "f",
        ends: &[1],
        list_rows: false,
        fault: Fault::WrongCount { node: 1, row: 3 },
        expected: "whilst decoding field 'f': Incorrect number of elements for FixedSizeList, expected 3 but got 2",
    },
    Case {
        elements: "z {4 s0 t }1",
        texts: "f",
        ends: &[1],
        list_rows: false,
        fault: Fault::WrongKind {
            node: 1,
            position: 3,
        },
        expected: "whilst decoding field 'f': expected [ got true",
    },
    Case {
        elements: "z {8 s0 [7 z t z ]3 }1",
        texts: "f",
        ends: &[1],
        list_rows: false,
        fault: Fault::WrongKind {
            node: 2,
            position: 5,
        },
        expected: "whilst decoding field 'f': expected null got true",
    },
    Case {
        elements: "z {5 s0 [4 ]3 }1",
        texts: "m",
        ends: &[1],
        list_rows: false,
        fault: Fault::WrongKind {
            node: 3,
            position: 3,
        },
        expected: "whilst decoding field 'm': expected { got []",
    },
    Case {
        elements: "z {7 s0 {6 s1 n2 }3 }1",
        texts: "mp1e3",
        ends: &[1, 2, 5],
        list_rows: false,
        fault: Fault::WrongKind {
            node: 5,
            position: 5,
        },
        expected: "whilst decoding field 'm': expected [ got 1e3",
    },
    Case {
        elements: "z {9 s0 {8 s1 [7 f ]5 }3 }1",
        texts: "mp",
        ends: &[1, 2],
        list_rows: false,
        fault: Fault::WrongKind {
            node: 6,
            position: 6,
        },
        expected: "whilst decoding field 'm': expected string got false",
    },
];

#[test]
fn at_the_root_and_its_field(rt: HostRuntime) -> Result<(), Fail> {
    for case in FLAT_CASES {
        assert!(rt; tells(rt.alloc(), FLAT, case)?, "{}", case.expected);
    }
    Ok(())
}

#[test]
fn below_structs_and_a_list(rt: HostRuntime) -> Result<(), Fail> {
    for case in DEEP_CASES {
        assert!(rt; tells(rt.alloc(), DEEP, case)?, "{}", case.expected);
    }
    Ok(())
}

#[test]
fn below_a_fixed_list_and_a_map(rt: HostRuntime) -> Result<(), Fail> {
    for case in MIXED_CASES {
        assert!(rt; tells(rt.alloc(), MIXED, case)?, "{}", case.expected);
    }
    Ok(())
}
