// Names, found by a hash.
ghost use Rattle.std.specs.Prelude.{◌≡◌, ℕ, ◌<◌, ◌≤◌, Option, length};
ghost use Rattle.names.specs.Scans.{scan_names};
ghost use Rattle.names.specs.Slots.{used, Holds, Sought, Keyed};

use crate::NameIndex;
use crate::hash::hash;
use crate::scan::Scan;

// A slot may hold the place of a name. A name stands in the first slot that was empty from its own slot on.
#[derive(Drop)]
pub struct Table<'a> {
    pub(crate) scan: Scan<'a>,
    slots: [Option<u8>; 128],
    pub ghost keyed: { ∥ Keyed (scan_names scan) slots (length (scan_names scan)) ∥₁ },
}

// The slot that has the name, or else the first empty slot on the way.
fn seek(scan: &Scan<'_>, slots: &[Option<u8>; 128], name: &[u8]) -> usize
    requires known { (s p : ℕ) → Holds slots.now s p → p < length (scan_names scan.now) }
    requires room { used slots.now ≤ length (scan_names scan.now) }
    ensures below { result < 128 }
    ensures sought { Sought (scan_names scan.now) slots.now name.now result }
{
    let first = hash(name);
    (0..128)
        .map(|step| (first + step) % 128)
        .find(|slot| match slots[*slot] {
            Some(place) => scan.has(place as usize, name),
            None => true,
        })
        .unwrap()
}

// The names of a scan.
impl<'a> From<Scan<'a>> for Table<'a> {
    ghost from_gives = { λ scan table. table.scan ≡ scan };

    fn from(scan: Scan<'a>) -> Table<'a> {
        let mut slots = [None; 128];
        for place in 0..scan.len() {
            let slot = seek(&scan, &slots, scan.name(place));
            slots[slot] = slots[slot].or(Some(place as u8));
        }
        Table { scan, slots }
    }
}

impl NameIndex for Table<'_> {
    ghost names = { λ t. scan_names t.scan };

    fn find(&self, name: &[u8]) -> Option<usize> {
        self.slots[seek(&self.scan, &self.slots, name)].map(usize::from)
    }
}
