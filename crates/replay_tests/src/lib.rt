// Calls on a new shelf, from raw bytes.
#![tactic(auto)]

use entry::StructRows;
use entry::naming::StructRowsOf;
use names::Scan;
use rows::{Entered, Reading, StructRows as NamedRows};
use schema::Schema;
use slip::Fault;

// Reads the rows of structs in a way of its own: by a scan, however many names there are.
#[derive(Drop)]
pub struct ByScan<'a> {
    schema: Schema<'a>,
}

impl StructRows for ByScan<'_> {
    ghost schema = { λ s. s.schema };

    fn enter_struct(
        &self,
        fields: usize,
        reading: Reading<'_>,
        work: &mut [u32],
        area: &mut [u8],
        top: usize,
    ) -> Result<Entered, Fault> {
        let scan = Scan::of(self.schema, reading.node);
        let named = NamedRows {
            index: &scan,
            fields,
        };
        rows::enter::<_, i32>(&named, reading, work, area, top)
    }
}

impl<'a> StructRowsOf<'a> for ByScan<'a> {
    fn reader_of(schema: Schema<'a>) -> ByScan<'a> {
        ByScan { schema }
    }
}

#[cfg(test)]
mod tests {
    use crate::ByScan;
    use leaf::leaves::Null;
    use replay::{Answer, Call, TapeBytes, replay};
    use rows::{MapRows, Reading, RowKind};
    use schema::Schema;
    use schema::settings::Settings;
    use shelf::Shelf;
    use slip::Fault;
    use tape::Tape;
    use tape::rows::Rows;

    // A root with one nullable text `a`.
    const RECORDS: [u8; 32] = [
        b'S', 0, 0, 0, 2, 0, 0, 0, 0, 0, 0, 0, 0, 0, 1, 0, b'T', 1, 0, 0, 2, 0, 0, 0, 0, 0, 0, 0,
        1, 0, 0, 0,
    ];

    // {"a":"hi"}
    const ELEMENTS: [u8; 40] = [
        b'z', 0, 0, 0, 0, 0, 0, 0, b'{', 0, 0, 0, 4, 0, 0, 0, b's', 0, 0, 0, 0, 0, 0, 0, b's', 0,
        0, 0, 1, 0, 0, 0, b'}', 0, 0, 0, 1, 0, 0, 0,
    ];

    const OFFSETS: [u8; 12] = [0, 0, 0, 0, 1, 0, 0, 0, 3, 0, 0, 0];

    const OFF: Settings = Settings {
        coerce: false,
        strict: false,
        lenient: false,
        list_rows: false,
    };

    fn shelve(positions: &[u32]) -> Call<'_> {
        Call::Shelve {
            tape: TapeBytes {
                elements: &ELEMENTS,
                texts: b"ahi",
                offsets: &OFFSETS,
            },
            positions,
            lent: 16,
        }
    }

    // One batch of one row: shelved, counted, read, released.
    #[test]
    fn one_frame(rt: HostRuntime) {
        let mut page = [7u8; 96];
        let mut work = [9u32; 16];
        let mut answers = [Ok(Answer::Batch(0)); 6];
        let calls = [
            Call::Count,
            shelve(&[1]),
            Call::Count,
            Call::Cell {
                batch: 0,
                node: 1,
                slot: 0,
            },
            Call::Release,
            Call::Count,
        ];
        let r = replay::<Null, Schema<'_>>(
            &RECORDS,
            b"a",
            OFF,
            &Null {},
            &mut page,
            &mut work,
            &calls,
            &mut answers,
        );
        assert!(rt; r.is_ok());
        assert_eq!(rt; answers[0], Ok(Answer::Counts(0, 96)));
        assert_eq!(rt; answers[1], Ok(Answer::Batch(0)));
        assert_eq!(rt; answers[2], Ok(Answer::Counts(1, 16)));
        assert_eq!(rt; answers[3], Ok(Answer::Cell(2, 72, 2)));
        assert_eq!(rt; answers[4], Ok(Answer::Batch(0)));
        assert_eq!(rt; answers[5], Ok(Answer::Counts(0, 96)));
        assert!(rt; work[0] == 0);
        assert!(rt; page[72] == 0);
    }

    // The bytes of the batch, and what refusals leave.
    #[test]
    fn refusals_change_nothing(rt: HostRuntime) {
        let mut page = [7u8; 96];
        let mut work = [9u32; 16];
        let mut answers = [Ok(Answer::Batch(0)); 4];
        let calls = [
            shelve(&[1]),
            shelve(&[0]),
            shelve(&[1]),
            Call::Cell {
                batch: 1,
                node: 0,
                slot: 0,
            },
        ];
        let r = replay::<Null, Schema<'_>>(
            &RECORDS,
            b"a",
            OFF,
            &Null {},
            &mut page,
            &mut work,
            &calls,
            &mut answers,
        );
        assert!(rt; r.is_ok());
        assert_eq!(rt; answers[0], Ok(Answer::Batch(0)));
        assert_eq!(rt; answers[1], Err(Fault::Full { node: 0 }));
        assert_eq!(rt; answers[2], Err(Fault::Full { node: 0 }));
        assert_eq!(rt; answers[3], Err(Fault::NotThere));
        assert!(rt; page[64] == 0 && page[68] == 2);
        assert!(rt; page[72] == b'h' && page[73] == b'i');
        assert!(rt; page[80] == 0);
    }

    // A bad schema and a bad page are refused, and the page stays.
    #[test]
    fn nothing_opens(rt: HostRuntime) {
        let mut page = [7u8; 95];
        let mut work = [0u32; 1];
        let mut answers = [Ok(Answer::Batch(0)); 1];
        let calls = [shelve(&[1])];
        let bad = replay::<Null, Schema<'_>>(
            &RECORDS,
            b"",
            OFF,
            &Null {},
            &mut page,
            &mut work,
            &calls,
            &mut answers,
        );
        assert_eq!(rt; bad, Err(Fault::BadSchema));
        let odd = replay::<Null, Schema<'_>>(
            &RECORDS,
            b"a",
            OFF,
            &Null {},
            &mut page,
            &mut work,
            &calls,
            &mut answers,
        );
        assert_eq!(rt; odd, Err(Fault::Full { node: 0 }));
        assert!(rt; page[0] == 7);
    }

    // Another reader of struct rows finds the same.
    #[test]
    fn another_reader(rt: HostRuntime) {
        let mut page = [7u8; 96];
        let mut work = [9u32; 16];
        let mut answers = [Ok(Answer::Batch(0)); 2];
        let calls = [
            shelve(&[1]),
            Call::Cell {
                batch: 0,
                node: 1,
                slot: 0,
            },
        ];
        let r = replay::<Null, ByScan<'_>>(
            &RECORDS,
            b"a",
            OFF,
            &Null {},
            &mut page,
            &mut work,
            &calls,
            &mut answers,
        );
        assert!(rt; r.is_ok());
        assert_eq!(rt; answers[0], Ok(Answer::Batch(0)));
        assert_eq!(rt; answers[1], Ok(Answer::Cell(2, 72, 2)));
        assert!(rt; page[72] == b'h' && page[73] == b'i');
    }

    // The first Shelve on a page.
    fn first_shelve(page: &mut [u8]) -> Result<usize, Fault> {
        let schema = Schema::open(&RECORDS, b"a")?;
        let tape = Tape::open(&ELEMENTS, b"ahi", &OFFSETS)?;
        let mut work = [9u32; 16];
        let mut shelf = Shelf::new(page, schema, OFF, &Null {});
        shelf.shelve::<Schema<'_>>(tape, &[1], &mut work)
    }

    // What is free of a page is cleared by Shelve, and a page that does not fit is refused as it is.
    #[test]
    fn a_page_that_is_not_clear(rt: HostRuntime) {
        let mut page = [7u8; 96];
        assert_eq!(rt; first_shelve(&mut page), Ok(0));
        assert!(rt; page[64] == 0 && page[68] == 2);
        assert!(rt; page[72] == b'h' && page[73] == b'i');
        assert!(rt; page[74] == 0 && page[80] == 0 && page[95] == 0);
        let mut odd = [7u8; 95];
        assert_eq!(rt; first_shelve(&mut odd), Err(Fault::Full { node: 0 }));
        assert!(rt; odd[0] == 7 && odd[94] == 7);
    }

    // Shelves twice, releases, and shelves again; the answers, and the free bytes after each.
    fn shelve_again(page: &mut [u8]) -> Result<[usize; 8], Fault> {
        let schema = Schema::open(&RECORDS, b"a")?;
        let tape = Tape::open(&ELEMENTS, b"ahi", &OFFSETS)?;
        let mut work = [9u32; 16];
        let mut shelf = Shelf::new(page, schema, OFF, &Null {});
        let mut seen = [0; 8];
        seen[0] = shelf.shelve::<Schema<'_>>(tape, &[1], &mut work)?;
        seen[1] = shelf.count().1;
        seen[2] = shelf.shelve::<Schema<'_>>(tape, &[1], &mut work)?;
        seen[3] = shelf.count().1;
        seen[4] = shelf.release()?;
        seen[5] = shelf.count().1;
        seen[6] = shelf.shelve::<Schema<'_>>(tape, &[1], &mut work)?;
        seen[7] = shelf.count().1;
        Ok(seen)
    }

    #[test]
    fn more_on_a_page_that_is_not_clear(rt: HostRuntime) {
        let mut page = [7u8; 176];
        assert_eq!(rt; shelve_again(&mut page), Ok([0, 96, 1, 16, 1, 96, 1, 16]));
        assert!(rt; page[72] == b'h' && page[73] == b'i');
        assert!(rt; page[152] == b'h' && page[153] == b'i');
        assert!(rt; page[154] == 0 && page[160] == 0 && page[175] == 0);
    }

    // Counts a row of a map alone, for a reading of no rows, and puts its names and values.
    fn map_row(p: u32, work: &mut [u32]) -> Result<(usize, usize), Fault> {
        let tape = Tape::open(&ELEMENTS, b"ahi", &OFFSETS)?;
        if !tape.is_position(p) || !tape.is_at(p, '{') {
            return Err(Fault::BadPosition { index: 0 });
        }
        let rows = Rows {
            tape,
            positions: &[],
        };
        let reading = Reading {
            rows,
            settings: OFF,
            node: 0,
            in_force: false,
        };
        let items = MapRows.count_alone(reading, p)?;
        if 2 * items > work.len() {
            return Err(Fault::Full { node: 0 });
        }
        let put = MapRows.put_alone(reading, p, work, items, 0);
        Ok((items, put))
    }

    #[test]
    fn a_row_alone(rt: HostRuntime) {
        let mut work = [9u32; 3];
        assert_eq!(rt; map_row(1, &mut work), Ok((1, 1)));
        assert_eq!(rt; work, [2, 3, 9]);
        assert_eq!(rt; map_row(2, &mut work), Err(Fault::BadPosition { index: 0 }));
    }
}
