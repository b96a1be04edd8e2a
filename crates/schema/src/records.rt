// Records of sixteen bytes each, and the names that they tell of.
ghost use Rattle.std.specs.Prelude.{◌≡◌, ◌+◌, ◌^◌, ◌<◌, ◌≤◌, length};
ghost use Rattle.schema.specs.Layout.{record_count, letter_at, flag_at, wide_at, spare_at, end_at, start_at, size_at, name_at, count_at};

use octets::word::Word;

// Two slices: the records, and the names that lie in one another's bytes.
#[derive(Clone, Copy)]
pub struct Records<'a> {
    pub bytes: &'a [u8],
    pub names: &'a [u8],
}

impl<'a> Records<'a> {
    // How many whole records there are.
    pub(crate) fn len(self) -> usize
        ensures { result ≡ record_count self.entry.bytes.now }
    {
        self.bytes.len() / 16
    }

    // The letter of record `at`.
    pub(crate) fn letter(self, at: usize) -> char
        requires { at < record_count self.bytes.now }
        ensures { result ≡ letter_at self.entry.bytes.now at }
    {
        self.bytes[16 * at] as char
    }

    // Its nullable flag.
    pub(crate) fn flag(self, at: usize) -> u8
        requires { at < record_count self.bytes.now }
        ensures { result ≡ flag_at self.entry.bytes.now at }
    {
        self.bytes[16 * at + 1]
    }

    // Its wide flag.
    pub(crate) fn wide(self, at: usize) -> u8
        requires { at < record_count self.bytes.now }
        ensures { result ≡ wide_at self.entry.bytes.now at }
    {
        self.bytes[16 * at + 2]
    }

    // The byte that says nothing.
    pub(crate) fn spare(self, at: usize) -> u8
        requires { at < record_count self.bytes.now }
        ensures { result ≡ spare_at self.entry.bytes.now at }
    {
        self.bytes[16 * at + 3]
    }

    // The number after the last node below it.
    pub(crate) fn end(self, at: usize) -> usize
        requires { at < record_count self.bytes.now }
        ensures { result ≡ end_at self.entry.bytes.now at }
    {
        u32::read_at(self.bytes, 16 * at + 4) as usize
    }

    // Where its name begins among the names.
    pub(crate) fn start(self, at: usize) -> usize
        requires { at < record_count self.bytes.now }
        ensures small { result < 2 ^ 32 }
        ensures said { result ≡ start_at self.entry.bytes.now at }
    {
        u32::read_at(self.bytes, 16 * at + 8) as usize
    }

    // How long its name is.
    pub(crate) fn size(self, at: usize) -> usize
        requires { at < record_count self.bytes.now }
        ensures small { result < 2 ^ 16 }
        ensures said { result ≡ size_at self.entry.bytes.now at }
    {
        u16::read_at(self.bytes, 16 * at + 12) as usize
    }

    // Its count.
    pub(crate) fn count(self, at: usize) -> usize
        requires { at < record_count self.bytes.now }
        ensures small { result < 2 ^ 16 }
        ensures said { result ≡ count_at self.entry.bytes.now at }
    {
        u16::read_at(self.bytes, 16 * at + 14) as usize
    }

    // Its name.
    pub fn name(self, at: usize) -> &'a [u8]
        requires within { at < record_count self.bytes.now }
        requires inside { start_at self.bytes.now at + size_at self.bytes.now at ≤ length self.names.now }
        ensures { result.now ≡ name_at self.entry.bytes.now self.entry.names.now at }
    {
        let start = self.start(at);
        &self.names[start..start + self.size(at)]
    }
}
