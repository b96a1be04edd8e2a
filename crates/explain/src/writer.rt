// Text put into an area piece by piece. What has no room is counted and not written.
// No `write!`: it promises something only where it answers `Ok`, and nothing says that it does.
ghost use Rattle.std.specs.Prelude.{◌≡◌, ◌++◌, codes};
ghost use Rattle.explain.specs.Puts.{Puts};

use itoa::{Buffer, Integer};
use octets::copy_at;

// An area, and how many bytes were put.
#[derive(Drop)]
pub(crate) struct Writer<'a> {
    area: &'a mut [u8],
    len: usize,
}

impl<'a> Writer<'a> {
    // An area in which nothing was put.
    pub(crate) fn new(area: &'a mut [u8]) -> Writer<'a>
        ensures lent { result.area.ghost_name ≡ area.entry.ghost_name }
        ensures held { result.area.now ≡ area.old }
        ensures empty { result.len ≡ 0 }
    {
        Writer { area, len: 0 }
    }

    // How many bytes were put.
    pub(crate) fn len(&self) -> usize
        ensures { result ≡ self.now.len }
    {
        self.len
    }

    // Puts these bytes.
    pub(crate) fn put(&mut self, part: &[u8])
        ensures { Puts part.now self.old self.new }
    {
        if part.len() <= self.area.len() && self.len <= self.area.len() - part.len() {
            copy_at(self.area, self.len, part);
        }
        self.len = self.len.saturating_add(part.len());
    }

    // Puts a whole number in decimals.
    pub(crate) fn number<I: Integer>(&mut self, n: I)
        ensures { Puts (I.text n) self.old self.new }
    {
        self.put(Buffer::new().format(n).as_bytes());
    }

    // Puts a text between quotes, as it is.
    pub(crate) fn quoted(&mut self, text: &[u8])
        ensures { Puts (codes "\"" ++ (text.now ++ codes "\"")) self.old self.new }
    {
        self.put(b"\"");
        self.put(text);
        self.put(b"\"");
    }
}
