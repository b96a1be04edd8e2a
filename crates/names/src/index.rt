// Few names are tried one by one, and more are looked up in a table.
ghost use Rattle.std.specs.Prelude.{◌≡◌, ◌<◌};
ghost use Rattle.schema.specs.Tree.{Node, children_of, names as names_in};
ghost use Rattle.schema.specs.Layout.{the, letter_at};
ghost use Rattle.schema.specs.Opened.{NodeOf, records_of, size_of};
ghost use Rattle.names.specs.Lowest.{AlwaysLowest};
ghost use Rattle.names.specs.Scans.{scan_names};
ghost use Rattle.names.specs.Indexes.{index_names, Chosen};

use crate::NameIndex;
use crate::scan::Scan;
use crate::table::Table;
use schema::Schema;

// A scan of fewer than 16 names, or a table.
#[derive(Drop)]
pub enum Index<'a> {
    Few(Scan<'a>),
    Many(Table<'a>),
}

// The names of a scan.
impl<'a> From<Scan<'a>> for Index<'a> {
    ghost from_gives = { λ scan index. Chosen index × (index_names index ≡ scan_names scan) };

    fn from(scan: Scan<'a>) -> Index<'a> {
        if scan.len() < 16 {
            Index::Few(scan)
        } else {
            Index::Many(Table::from(scan))
        }
    }
}

impl<'a> Index<'a> {
    // The fields of a struct.
    pub fn of(schema: Schema<'a>, node: usize) -> Index<'a>
        requires within { node < size_of schema }
        requires kind { letter_at (records_of schema) node ≡ the "S" }
        ensures chosen { Chosen result }
        ensures names { (t : Node) → NodeOf schema.entry node t → index_names result ≡ names_in (children_of t) }
        ensures lowest { AlwaysLowest }
    {
        Index::from(Scan::of(schema, node))
    }
}

impl NameIndex for Index<'_> {
    ghost names = { index_names };

    fn find(&self, name: &[u8]) -> Option<usize> {
        match self {
            Index::Few(scan) => scan.find(name),
            Index::Many(table) => table.find(name),
        }
    }
}
