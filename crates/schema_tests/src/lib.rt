// Small schemas, opened and looked up.
#![tactic(auto)]

ghost use Rattle.std.specs.Prelude.{◌<◌, ◌≤◌};
ghost use Rattle.schema.specs.Opened.{size_of};

#[cfg(test)]
mod tests {
    use names::{Index, NameIndex, Scan, Table};
    use schema::Schema;
    use schema::kind::{Branch, Kind, LeafKind};
    use std::test::Fail;

    // One name of one byte for each field; places 0, 14, 15 and 63 are twins.
    const NAMES: [u8; 64] = *b"abcdefghijklmnaapqrstuvwxyzABCDEFGHIJKLMNOPQRSTUVWXYZ0123456789a";

    // A record for each node: letter, nullable, wide, end, count.
    const NODES: [(u8, u8, u8, u8, u8); 12] = [
        (b'S', 0, 0, 12, 6),
        (b'F', 1, 0, 3, 3),
        (b'B', 0, 0, 3, 0),
        (b'L', 0, 0, 5, 0),
        (b'T', 1, 0, 5, 0),
        (b'V', 1, 1, 7, 0),
        (b'X', 0, 0, 7, 0),
        (b'M', 0, 0, 10, 0),
        (b'T', 0, 0, 9, 0),
        (b'N', 1, 0, 10, 0),
        (b'T', 0, 1, 11, 0),
        (b'S', 1, 0, 12, 0),
    ];

    // What each node is.
    const KINDS: [Kind; 12] = [
        Kind::Branch(Branch::Struct),
        Kind::Branch(Branch::Fixed { count: 3 }),
        Kind::Leaf(LeafKind::Boolean),
        Kind::Branch(Branch::List {
            view: false,
            wide: false,
        }),
        Kind::Leaf(LeafKind::Text { wide: false }),
        Kind::Branch(Branch::List {
            view: true,
            wide: true,
        }),
        Kind::Leaf(LeafKind::Custom),
        Kind::Branch(Branch::Map),
        Kind::Leaf(LeafKind::Text { wide: false }),
        Kind::Leaf(LeafKind::Null),
        Kind::Leaf(LeafKind::Text { wide: true }),
        Kind::Branch(Branch::Struct),
    ];

    // A byte of those records, and a value that makes them no schema.
    const BREACHES: [(usize, u8); 32] = [
        (0, b'M'),
        (0, b'T'),
        (1, 1),
        (2, 1),
        (3, 1),
        (4, 11),
        (4, 13),
        (5, 1),
        (8, 65),
        (11, 1),
        (12, 65),
        (13, 1),
        (14, 5),
        (14, 7),
        (15, 1),
        (16, b'Z'),
        (16, b's'),
        (17, 2),
        (18, 1),
        (20, 4),
        (34, 1),
        (46, 1),
        (50, 2),
        (51, 1),
        (62, 1),
        (82, 2),
        (98, 1),
        (114, 1),
        (126, 1),
        (145, 0),
        (146, 1),
        (180, 11),
    ];

    // Every letter, each node named by its own byte.
    fn every() -> [u8; 192] {
        let mut records = [0u8; 192];
        for k in 0..12 {
            let (letter, flag, wide, end, count) = NODES[k];
            let at = 16 * k;
            records[at] = letter;
            records[at + 1] = flag;
            records[at + 2] = wide;
            records[at + 4] = end;
            records[at + 8] = k as u8;
            records[at + 12] = 1;
            records[at + 14] = count;
        }
        records
    }

    // A struct with so many fields of text, field k named by byte k.
    fn flat(fields: u8) -> [u8; 1056]
        requires { fields ≤ 65 }
    {
        let mut records = [0u8; 1056];
        records[0] = b'S';
        records[4] = fields + 1;
        records[14] = fields;
        for k in 0..fields {
            let at = 16 * (k as usize + 1);
            records[at] = b'T';
            records[at + 1] = 1;
            records[at + 4] = k + 2;
            records[at + 8] = k % 64;
            records[at + 12] = 1;
        }
        records
    }

    // A struct, lists each in the one before, and a boolean: so many levels.
    fn nested(levels: u8) -> [u8; 288]
        requires { levels ≤ 18 }
    {
        let mut records = [0u8; 288];
        for k in 0..levels {
            let at = 16 * k as usize;
            records[at] = if k + 1 < levels { b'L' } else { b'B' };
            records[at + 4] = levels;
        }
        records[0] = b'S';
        records[14] = 1;
        records
    }

    // The first so many bytes.
    fn head(bytes: &[u8], size: usize) -> &[u8] {
        if size <= bytes.len() {
            &bytes[..size]
        } else {
            bytes
        }
    }

    fn opens<'a>(records: &'a [u8], names: &'a [u8]) -> bool {
        Schema::open(records, names).is_ok()
    }

    // Whether node `k` reads as it was written.
    fn reads(schema: Schema<'_>, k: usize) -> bool
        requires { k < 12 }
    {
        let (letter, flag, wide, end, count) = NODES[k];
        k < schema.len()
            && schema.letter(k) == letter as char
            && schema.nullable(k) == (flag == 1)
            && schema.wide(k) == (wide == 1)
            && schema.end(k) == end as usize
            && schema.count(k) == count as usize
            && schema.name(k) == &NAMES[k..k + 1]
    }

    // Whether both kinds of index, and the one that is chosen, answer `place`.
    fn finds<'a>(records: &'a [u8], names: &'a [u8], name: &[u8], place: Option<usize>) -> bool {
        match Schema::open(records, names) {
            Ok(schema) => {
                if schema.len() == 0 || schema.letter(0) != 'S' {
                    return false;
                }
                let scan = Scan::of(schema, 0);
                let table = Table::from(scan);
                let index = Index::of(schema, 0);
                scan.find(name) == place && table.find(name) == place && index.find(name) == place
            }
            Err(_) => false,
        }
    }

    // The child of `node` that is node `below` or stands above it.
    fn over(schema: Schema<'_>, node: usize, below: usize) -> Option<usize>
        requires { node < size_of schema }
    {
        schema
            .children(node)
            .find(|&child| schema.end(child) > below)
    }

    #[test]
    fn every_letter(rt: HostRuntime) -> Result<(), Fail> {
        let records = every();
        match Schema::open(&records, &NAMES) {
            Ok(schema) => {
                for k in 0..12 {
                    assert!(rt; reads(schema, k));
                }
                assert!(rt; schema.len() == 12);
                Ok(())
            }
            Err(_) => {
                assert!(rt; false);
                Ok(())
            },
        }
    }

    #[test]
    fn every_breach(rt: HostRuntime) {
        for k in 0..32 {
            let (at, value) = BREACHES[k];
            let mut records = every();
            if at < 192 {
                records[at] = value;
            }
            assert!(rt; !opens(&records, &NAMES));
        }
    }

    #[test]
    fn sizes(rt: HostRuntime) {
        let records = every();
        assert!(rt; opens(&records, &NAMES));
        assert!(rt; !opens(head(&records, 0), &NAMES));
        assert!(rt; !opens(head(&records, 176), &NAMES));
        assert!(rt; !opens(head(&records, 191), &NAMES));
        assert!(rt; !opens(&records, head(&NAMES, 11)));
        assert!(rt; opens(&records, head(&NAMES, 12)));
    }

    #[test]
    fn many_fields(rt: HostRuntime) {
        assert!(rt; opens(head(&flat(64), 1040), &NAMES));
        assert!(rt; !opens(&flat(65), &NAMES));
        assert!(rt; !opens(&flat(64), &NAMES));
        assert!(rt; !opens(head(&flat(64), 1024), &NAMES));
        assert!(rt; opens(head(&flat(0), 16), &NAMES));
    }

    #[test]
    fn levels(rt: HostRuntime) {
        assert!(rt; opens(head(&nested(2), 32), &NAMES));
        assert!(rt; opens(head(&nested(16), 256), &NAMES));
        assert!(rt; !opens(head(&nested(17), 272), &NAMES));
    }

    #[test]
    fn twins(rt: HostRuntime) {
        assert!(rt; finds(head(&flat(15), 256), &NAMES, b"a", Some(0)));
        assert!(rt; finds(head(&flat(16), 272), &NAMES, b"a", Some(0)));
        assert!(rt; finds(head(&flat(64), 1040), &NAMES, b"a", Some(0)));
        assert!(rt; finds(head(&flat(15), 256), &NAMES, b"n", Some(13)));
        assert!(rt; finds(head(&flat(16), 272), &NAMES, b"n", Some(13)));
        assert!(rt; finds(head(&flat(64), 1040), &NAMES, b"9", Some(62)));
        assert!(rt; finds(head(&flat(16), 272), &NAMES, b"z", None));
        assert!(rt; finds(head(&flat(64), 1040), &NAMES, b"ab", None));
    }

    #[test]
    fn empty_names(rt: HostRuntime) {
        let mut records = flat(16);
        assert!(rt; finds(head(&records, 272), &NAMES, b"", None));
        records[60] = 0;
        assert!(rt; finds(head(&records, 272), &NAMES, b"", Some(2)));
        records[156] = 0;
        assert!(rt; finds(head(&records, 272), &NAMES, b"", Some(2)));
        records[56] = 64;
        assert!(rt; opens(head(&records, 272), &NAMES));
        records[56] = 65;
        assert!(rt; !opens(head(&records, 272), &NAMES));
    }

    #[test]
    fn long_names(rt: HostRuntime) {
        let names = [b'x'; 300];
        let mut records = flat(1);
        records[28] = 255;
        assert!(rt; opens(head(&records, 32), &names));
        records[28] = 0;
        records[29] = 1;
        assert!(rt; !opens(head(&records, 32), &names));
    }

    #[test]
    fn utf8(rt: HostRuntime) {
        let mut records = flat(1);
        assert!(rt; !opens(head(&records, 32), b"\xc3\xa9"));
        records[28] = 2;
        assert!(rt; opens(head(&records, 32), b"\xc3\xa9"));
        assert!(rt; !opens(head(&records, 32), b"\xa9\xc3"));
    }

    #[test]
    fn kinds(rt: HostRuntime) {
        let records = every();
        if let Ok(schema) = Schema::open(&records, &NAMES) {
            for k in 0..12 {
                assert!(rt; k < schema.len());
                assert!(rt; schema.kind(k) == KINDS[k]);
            }
        }
    }

    #[test]
    fn children(rt: HostRuntime) {
        let records = every();
        if let Ok(schema) = Schema::open(&records, &NAMES) {
            assert!(rt; schema.len() == 12);
            let below = [1, 3, 5, 7, 10, 11];
            for (place, child) in schema.children(0).enumerate() {
                assert!(rt; place < 6);
                assert!(rt; child == below[place]);
            }
            assert!(rt; schema.children(0).count() == 6);
            assert!(rt; schema.children(1).count() == 1);
            assert!(rt; schema.children(2).count() == 0);
            assert!(rt; schema.children(7).count() == 2);
            assert!(rt; schema.children(11).count() == 0);
            assert!(rt; over(schema, 0, 8) == Some(7));
        }
    }
}
