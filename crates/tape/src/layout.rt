// How elements and offsets lie in their bytes.
ghost use Rattle.std.specs.Prelude.{◌≡◌, ℕ, ◌%◌, ◌<◌, length, Decides};
ghost use Rattle.tape.specs.Layout.{letter_at, number_at, offset_at, element_count, offset_count};
ghost use Rattle.tape.specs.Opens.{Bare, Rise};

use octets::word::Word;

// Elements, eight bytes each.
#[derive(Clone, Copy)]
pub struct Elements<'a> {
    bytes: &'a [u8],
    pub ghost whole: { length bytes.now % 8 ≡ 0 },
}

impl<'a> Elements<'a> {
    ghost use Rattle.tape.specs.Halves.{ElementsIn};

    // The elements in these bytes, where they end with an element.
    pub(crate) fn new(bytes: &'a [u8]) -> Option<Self>
        ensures { ElementsIn bytes.now result }
    {
        if bytes.len() % 8 != 0 {
            return None;
        }
        Some(Elements { bytes })
    }

    // How many there are.
    pub(crate) fn len(self) -> usize
        ensures { result ≡ element_count self.entry.bytes.now }
    {
        self.bytes.len() / 8
    }

    // The letter of element `at`.
    pub(crate) fn letter(self, at: usize) -> char
        requires { at < element_count self.bytes.now }
        ensures { result ≡ letter_at self.entry.bytes.now at }
    {
        self.bytes[8 * at] as char
    }

    // The number of element `at`.
    pub(crate) fn number(self, at: usize) -> u32
        requires { at < element_count self.bytes.now }
        ensures { result ≡ number_at self.entry.bytes.now at }
    {
        u32::read_at(self.bytes, 8 * at + 4)
    }

    // Whether bytes 1 to 3 of every element are zero.
    pub(crate) fn are_bare(self) -> bool
        ensures { Decides result ((p : ℕ) → p < element_count self.entry.bytes.now → Bare self.entry.bytes.now p) }
    {
        (0..self.len()).all(|p| {
            self.bytes[8 * p + 1] == 0 && self.bytes[8 * p + 2] == 0 && self.bytes[8 * p + 3] == 0
        })
    }
}

// Offsets, four bytes each.
#[derive(Clone, Copy)]
pub struct Offsets<'a> {
    bytes: &'a [u8],
    pub ghost whole: { length bytes.now % 4 ≡ 0 },
}

impl<'a> Offsets<'a> {
    ghost use Rattle.tape.specs.Halves.{OffsetsIn};

    // The offsets in these bytes, where they end with an offset.
    pub(crate) fn new(bytes: &'a [u8]) -> Option<Self>
        ensures { OffsetsIn bytes.now result }
    {
        if bytes.len() % 4 != 0 {
            return None;
        }
        Some(Offsets { bytes })
    }

    // How many there are.
    pub(crate) fn len(self) -> usize
        ensures { result ≡ offset_count self.entry.bytes.now }
    {
        self.bytes.len() / 4
    }

    // Offset `k`.
    pub(crate) fn get(self, k: usize) -> usize
        requires { k < offset_count self.bytes.now }
        ensures { result ≡ offset_at self.entry.bytes.now k }
    {
        u32::read_at(self.bytes, 4 * k) as usize
    }

    // Whether they rise, stay within the text and split no character.
    pub(crate) fn rise(self, text: &str) -> bool
        ensures { Decides result (Rise text.now self.entry.bytes.now) }
    {
        (0..self.len()).all(|k| {
            let next = self.get(k);
            (k == 0 || self.get(k - 1) <= next) && text.is_char_boundary(next)
        })
    }
}
