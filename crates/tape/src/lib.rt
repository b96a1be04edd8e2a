// A tape: a JSON text flattened to elements, with its texts and where each begins.
#![tactic(auto)]

ghost use Rattle.std.specs.Prelude.{◌≡◌, ◌+◌, ◌*◌, ◌^◌, ◌<◌, true, ◌||◌, length};
ghost use Rattle.tape.specs.Elements.{tape_element_at, LetterLaw};
ghost use Rattle.tape.specs.Layout.{the, next_at, number_at, element_count, offset_count};
ghost use Rattle.tape.specs.Opens.{Opens};
ghost use Rattle.tape.specs.Values.{elem_of};
ghost use Rattle.tape.specs.View.{view, twos, is_at, text_at, words_at, element_at, entries, is_position};
ghost use Rattle.tape.specs.Walk.{onward, ListLaw, ObjectLaw, RowsLaw, NextLaw, FirstLaw, TextLaw};
ghost use Rattle.tape.specs.Unique.{Opens-prop};

use check::{is_formed, is_framed};
use element::{Element, TapeElement};
use layout::{Elements, Offsets};
use slip::Fault;
use walk::{Entries, Pairs};

mod check;
pub mod element;
mod layout;
pub mod rows;
pub mod walk;

// A view of three byte slices that follow the rules of a tape.
#[derive(Clone, Copy)]
pub struct Tape<'a> {
    elements: Elements<'a>,
    texts: &'a str,
    offsets: Offsets<'a>,
    pub ghost opened: { Opens elements.bytes.now texts.now offsets.bytes.now } by { Opens-prop elements.bytes.now texts.now offsets.bytes.now },
}

impl<'a> Tape<'a> {
    ghost use Rattle.tape.specs.Ahead.{rest, pairs_rest, by_twos};
    ghost use Rattle.tape.specs.Answer.{OpensTo};
    ghost use Rattle.tape.specs.Opened.{view_of};

    // The tape in three slices, where they follow the rules.
    pub fn open(elements: &'a [u8], texts: &'a [u8], offsets: &'a [u8]) -> Result<Tape<'a>, Fault>
        ensures { OpensTo (view elements.now texts.now offsets.now) result }
    {
        let elements = Elements::new(elements).ok_or(Fault::TornTape)?;
        let offsets = Offsets::new(offsets).ok_or(Fault::TornTape)?;
        // The texts are read after this, so that bytes of wrong sizes are refused without a look at them.
        if !is_framed(elements, texts.len(), offsets) {
            return Err(Fault::TornTape);
        }
        let texts = std::str::from_utf8(texts).map_err(|_| Fault::TornTape)?;
        if !is_formed(elements, texts, offsets) {
            return Err(Fault::TornTape);
        }
        Ok(Tape {
            elements,
            texts,
            offsets,
        })
    }

    // How many elements there are.
    pub fn count(self) -> usize
        ensures { result ≡ element_count (view_of self.entry).elements }
    {
        self.elements.len()
    }

    // The element at `p` as it lies on the tape.
    pub fn get(self, p: u32) -> TapeElement
        requires within { p < element_count (view_of self).elements }
        ensures { result ≡ tape_element_at (view_of self.entry) p }
    {
        let n = self.elements.number(p as usize);
        match self.elements.letter(p as usize) {
            '{' => TapeElement::StartObject(n),
            '}' => TapeElement::EndObject(n),
            '[' => TapeElement::StartList(n),
            ']' => TapeElement::EndList(n),
            's' => TapeElement::String(n),
            'n' => TapeElement::Number(n),
            'j' => TapeElement::I64(n.cast_signed()),
            'i' => TapeElement::I32(n.cast_signed()),
            't' => TapeElement::True,
            'f' => TapeElement::False,
            'z' => TapeElement::Null,
            _ => unreachable(),
        }
    }

    // The index after the value at `p`.
    pub fn next(self, p: u32) -> u32
        requires within { p < element_count (view_of self).elements }
        ensures { result ≡ next_at (view_of self.entry).elements p }
    {
        match self.elements.letter(p as usize) {
            '[' | '{' => self.elements.number(p as usize) + 1,
            'j' => p + 2,
            _ => p + 1,
        }
    }

    // Whether the element at `p` has this letter.
    pub fn is_at(self, p: u32, letter: char) -> bool
        requires within { p < element_count (view_of self).elements }
        ensures { result ≡ is_at (view_of self.entry) letter p }
    {
        self.elements.letter(p as usize) == letter
    }

    // The text of the string at the position `p`.
    pub fn words(self, p: u32) -> &'a str
        requires position { is_position (view_of self) p ≡ true }
        requires string { is_at (view_of self) (the "s") p ≡ true }
        ensures { result.now ≡ words_at (view_of self.entry) p }
    {
        self.get_string(self.elements.number(p as usize))
    }

    // The text with the number `k`.
    pub fn get_string(self, k: u32) -> &'a str
        requires within { k + 1 < offset_count (view_of self).offsets }
        ensures { result.now ≡ text_at (view_of self.entry) k }
    {
        let from = self.offsets.get(k as usize);
        let to = self.offsets.get(k as usize + 1);
        &self.texts[from..to]
    }

    // The entries of the list or the object at the position `p`; an object's names count too.
    pub fn entries(self, p: u32) -> Entries<'a>
        requires position { is_position (view_of self) p ≡ true }
        requires bracket { (is_at (view_of self) (the "{") p || is_at (view_of self) (the "[") p) ≡ true }
        ensures { rest result ≡ entries (view_of self.entry) p }
    {
        Entries::new(self, p + 1, self.elements.number(p as usize))
    }

    // The names of the object at the position `p`, each with its value.
    pub fn pairs(self, p: u32) -> Pairs<'a>
        requires position { is_position (view_of self) p ≡ true }
        requires object { is_at (view_of self) (the "{") p ≡ true }
        ensures { pairs_rest result ≡ by_twos (entries (view_of self.entry) p) }
    {
        Pairs::new(self, p + 1, self.elements.number(p as usize))
    }

    // The rows: the values that follow element 0, in no list and no object.
    pub fn values(self) -> Entries<'a>
        ensures { rest result ≡ onward (view_of self.entry) 1 (element_count (view_of self.entry).elements) }
    {
        Entries::new(self, 1, self.count() as u32)
    }

    // How many entries the list or the object at the position `p` has; an object's names count too.
    pub fn entry_count(self, p: u32) -> usize
        requires position { is_position (view_of self) p ≡ true }
        requires bracket { (is_at (view_of self) (the "{") p || is_at (view_of self) (the "[") p) ≡ true }
        ensures { result ≡ length (entries (view_of self.entry) p) }
    {
        self.entries(p).count()
    }

    // What a leaf sees of the element at `p`.
    pub fn element(self, p: u32) -> Element<'a>
        requires within { p < element_count (view_of self).elements }
        ensures { elem_of result ≡ element_at (view_of self.entry) p }
    {
        match self.get(p) {
            TapeElement::StartObject(_) => Element::Object,
            TapeElement::StartList(_) => Element::List,
            TapeElement::String(k) => Element::String(self.get_string(k).as_bytes()),
            TapeElement::Number(k) => Element::Number(self.get_string(k).as_bytes()),
            TapeElement::I64(_) => Element::I64(self.whole(p)),
            TapeElement::I32(n) => Element::I32(n),
            TapeElement::True => Element::True,
            TapeElement::False => Element::False,
            _ => Element::Null,
        }
    }

    // The whole number in the two elements from `p`.
    fn whole(self, p: u32) -> i64
        requires { p + 1 < element_count (view_of self).elements }
        ensures { result ≡ twos (2 ^ 63) (number_at (view_of self.entry).elements p * 2 ^ 32 + number_at (view_of self.entry).elements (p + 1)) }
    {
        let high = u64::from(self.elements.number(p as usize));
        let low = u64::from(self.elements.number(p as usize + 1));
        ((high << 32) + low).cast_signed()
    }

    // Whether `p` is a position: the index of a value or of a name.
    pub fn is_position(self, p: u32) -> bool
        ensures { result ≡ is_position (view_of self.entry) p }
    {
        let at = p as usize;
        if at >= self.count() {
            return false;
        }
        match self.elements.letter(at) {
            '}' | ']' => false,
            _ => at == 0 || self.elements.letter(at - 1) != 'j',
        }
    }
}

// The laws that a walk of an opened tape rests on.
pub fn walks_stand()
    ensures list { ListLaw }
    ensures object { ObjectLaw }
    ensures rows { RowsLaw }
    ensures next { NextLaw }
    ensures first { FirstLaw }
    ensures text { TextLaw }
    ensures letter { LetterLaw }
{}
