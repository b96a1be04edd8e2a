// Whether elements, texts and offsets are a tape.
ghost use Rattle.std.specs.Prelude.{◌≡◌, ◌+◌, ◌<◌, Decides};
ghost use Rattle.tape.specs.Layout.{element_count};
ghost use Rattle.tape.specs.Grammar.{Value, Values};
ghost use Rattle.tape.specs.Found.{Finds, Meets, ListTo, ObjectTo};
ghost use Rattle.tape.specs.Checks.{Framed, Formed};

use crate::layout::{Elements, Offsets};

// Whether they follow the rules that need no look at the texts, which have so many bytes.
pub(crate) fn is_framed(elements: Elements<'_>, texts: usize, offsets: Offsets<'_>) -> bool
    ensures { Decides result (Framed elements.entry.bytes.now texts offsets.entry.bytes.now) }
{
    elements.len() <= 1 << 24
        && texts <= 1 << 24
        && offsets.len() <= 1 << 24
        && elements.len() > 0
        && elements.letter(0) == 'z'
        && elements.number(0) == 0
        && elements.are_bare()
}

// Whether they follow the other rules: the offsets cut the texts well, and values fill the elements.
pub(crate) fn is_formed(elements: Elements<'_>, texts: &str, offsets: Offsets<'_>) -> bool
    ensures { Decides result (Formed elements.entry.bytes.now texts.now offsets.entry.bytes.now) }
{
    let grammar = Grammar {
        elements,
        offsets: offsets.len(),
    };
    offsets.rise(texts) && grammar.is_filled()
}

// The grammar of elements, beside so many offsets.
// Its loops go by `while`: a step jumps over a whole value and may fail, which an iterator would have to carry along.
#[derive(Clone, Copy)]
struct Grammar<'a> {
    elements: Elements<'a>,
    offsets: usize,
}

impl<'a> Grammar<'a> {
    // Whether values fill the elements from 1 on, at most 64 brackets open together.
    fn is_filled(self) -> bool
        ensures { Decides result (Values self.entry.elements.bytes.now self.entry.offsets 64 1 (element_count self.entry.elements.bytes.now)) }
    {
        let mut at = 1;
        while at < self.elements.len() {
            let Some(next) = self.value(64, at) else {
                return false;
            };
            at = next;
        }
        at == self.elements.len()
    }

    // The index after the value at `at`, inside which `depth` more brackets may open.
    #[cycle(list_object_value)]
    fn value(self, depth: usize, at: usize) -> Option<usize>
        ensures { Finds (Value self.entry.elements.bytes.now self.entry.offsets depth at) result }
    {
        if at >= self.elements.len() {
            return None;
        }
        let n = self.elements.number(at) as usize;
        match self.elements.letter(at) {
            's' | 'n' if n + 1 < self.offsets => Some(at + 1),
            'i' => Some(at + 1),
            't' | 'f' | 'z' if n == 0 => Some(at + 1),
            'j' if at + 1 < self.elements.len() && self.elements.letter(at + 1) == 'i' => {
                Some(at + 2)
            }
            '[' if depth > 0 => self.after(at, self.list(depth - 1, at + 1)?),
            '{' if depth > 0 => self.after(at, self.object(depth - 1, at + 1)?),
            _ => None,
        }
    }

    // The index after the bracket at `end`, where it and the one at `at` are partners.
    fn after(self, at: usize, end: usize) -> Option<usize>
        requires at { at < element_count self.elements.bytes.now }
        requires end { end < element_count self.elements.bytes.now }
        ensures { Finds (Meets self.entry.elements.bytes.now at end) result }
    {
        let to = self.elements.number(at) as usize;
        let back = self.elements.number(end) as usize;
        (to == end && back == at).then_some(end + 1)
    }

    // The index of the ']' that ends the values from `from`.
    #[cycle(list_object_value)]
    fn list(self, depth: usize, from: usize) -> Option<usize>
        ensures { Finds (ListTo self.entry.elements.bytes.now self.entry.offsets depth from) result }
    {
        let mut at = from;
        while at < self.elements.len() {
            if self.elements.letter(at) == ']' {
                return Some(at);
            }
            at = self.value(depth, at)?;
        }
        None
    }

    // The index of the '}' that ends the pairs from `from`.
    #[cycle(list_object_value)]
    fn object(self, depth: usize, from: usize) -> Option<usize>
        ensures { Finds (ObjectTo self.entry.elements.bytes.now self.entry.offsets depth from) result }
    {
        let mut at = from;
        while at < self.elements.len() {
            match self.elements.letter(at) {
                '}' => return Some(at),
                's' if (self.elements.number(at) as usize) + 1 < self.offsets => {
                    at = self.value(depth, at + 1)?;
                }
                _ => return None,
            }
        }
        None
    }
}
