// Names, tried one by one.
ghost use Rattle.std.specs.Prelude.{◌≡◌, ℕ, ◌+◌, ◌<◌, ◌≤◌, [], map, length, Decides, slice_index, slice_index_or};
ghost use Rattle.octets.specs.Lists.{between};
ghost use Rattle.schema.specs.Tree.{Node, children_of, names as names_in};
ghost use Rattle.schema.specs.Layout.{the, record_count, letter_at, count_at, start_at, size_at, name_at};
ghost use Rattle.schema.specs.Opened.{NodeOf, records_of, size_of};
ghost use Rattle.names.specs.Readable.{Readable};

use crate::NameIndex;
use schema::Schema;
use schema::records::Records;

// Up to 64 names, each by the number of its record. An array with a count, and no `ArrayVec`, so that a scan is `Copy`.
#[derive(Clone, Copy)]
pub struct Scan<'a> {
    records: Records<'a>,
    heads: [u16; 64],
    count: usize,
    pub ghost few: { count ≤ 64 },
    pub ghost long: { length heads ≡ 64 },
    pub ghost readable: { (q : ℕ) → q < count → Readable records.bytes.now records.names.now (slice_index heads q) },
}

impl<'a> Scan<'a> {
    ghost use Rattle.names.specs.Scans.{scan_names};

    // The fields of a struct.
    pub fn of(schema: Schema<'a>, node: usize) -> Scan<'a>
        requires within { node < size_of schema }
        requires kind { letter_at (records_of schema) node ≡ the "S" }
        ensures count { length (scan_names result) ≡ count_at (records_of schema.entry) node }
        ensures names { (t : Node) → NodeOf schema.entry node t → scan_names result ≡ names_in (children_of t) }
    {
        let (bytes, names) = schema.bytes();
        let mut heads = [0; 64];
        for (place, child) in schema.children(node).enumerate() {
            heads[place] = child as u16;
        }
        Scan {
            records: Records { bytes, names },
            heads,
            count: schema.count(node),
        }
    }

    // The names of up to 64 records; only the bytes that tell of a name count.
    pub fn over(records: &'a [u8], names: &'a [u8]) -> Scan<'a>
        requires few { record_count records.now ≤ 64 }
        requires inside { (i : ℕ) → i < record_count records.now → start_at records.now i + size_at records.now i ≤ length names.now }
        ensures count { length (scan_names result) ≡ record_count records.now }
        ensures names { scan_names result ≡ map (name_at records.now names.now) (between 0 (record_count records.now)) }
    {
        let count = records.len() / 16;
        let mut heads = [0; 64];
        for place in 0..count {
            heads[place] = place as u16;
        }
        Scan {
            records: Records {
                bytes: records,
                names,
            },
            heads,
            count,
        }
    }

    // How many names there are.
    pub(crate) fn len(&self) -> usize
        ensures value { result ≡ length (scan_names self.now) }
        ensures few { result ≤ 64 }
    {
        self.count
    }

    // The name at a place.
    pub(crate) fn name(&self, place: usize) -> &'a [u8]
        requires { place < length (scan_names self.now) }
        ensures { result.now ≡ slice_index_or (scan_names self.now) place [] }
    {
        self.records.name(self.heads[place] as usize)
    }

    // Whether a place has exactly these bytes.
    pub(crate) fn has(&self, place: usize, name: &[u8]) -> bool
        requires { place < length (scan_names self.now) }
        ensures { Decides result (slice_index_or (scan_names self.now) place [] ≡ name.now) }
    {
        self.name(place) == name
    }
}

impl NameIndex for Scan<'_> {
    ghost use Rattle.names.specs.Scans.{scan_names};

    ghost names = { scan_names };

    fn find(&self, name: &[u8]) -> Option<usize> {
        (0..self.len()).find(|place| self.has(*place, name))
    }
}
