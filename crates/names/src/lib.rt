// The names of fields, and where each is found.
#![tactic(auto)]

ghost use Rattle.std.specs.Prelude.{◌≡◌, ℕ, List};
ghost use Rattle.names.specs.Lowest.{lowest};

mod hash;
mod index;
mod scan;
mod table;

pub use index::Index;
pub use scan::Scan;
pub use table::Table;

// A list of names. A query changes nothing.
pub trait NameIndex {
    ghost names: { Self → List (List ℕ) };

    // The lowest place with exactly these bytes.
    fn find(&self, name: &[u8]) -> Option<usize>
        ensures { result ≡ lowest (names self.now) name.now };
}
