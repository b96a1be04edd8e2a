// The elements of a tape, a line for each, and its rows.
ghost use Rattle.std.specs.Prelude.{◌≡◌, ◌<◌, IfOk};
ghost use Rattle.tape.specs.Layout.{element_count};
ghost use Rattle.tape.specs.Opened.{view_of};
ghost use Rattle.tape.specs.Walk.{onward};

use crate::words::{Cut, Shown, Word};
use std::alloc::{AllocError, Global};
use std::fmt;
use tape::Tape;
use tape::element::{Element, TapeElement};

// What comes next on a tape.
#[derive(Clone, Copy, Default, PartialEq, Eq)]
enum Next {
    Name,
    #[default]
    Value,
    // The lower half of a whole number.
    LowerHalf,
}

// What is known before an element: the brackets that are open, and what comes next.
#[derive(Clone, Copy, Default)]
struct Nesting {
    depth: usize,
    // The lowest bit is 1 if the innermost bracket is an object's, and so on outwards.
    objects: u64,
    next: Next,
}

impl Nesting {
    // After an opening bracket.
    fn entered(self, object: bool) -> Nesting {
        Nesting {
            depth: self.depth.saturating_add(1),
            objects: (self.objects << 1) | u64::from(object),
            next: if object { Next::Name } else { Next::Value },
        }
    }

    // After a closing bracket.
    fn left(self) -> Nesting {
        Nesting {
            depth: self.depth.saturating_sub(1),
            objects: self.objects >> 1,
            ..self
        }
    }

    // After a whole value: in an object a name comes next.
    fn passed(self) -> Nesting {
        let in_object = self.objects & 1 == 1;
        Nesting {
            next: if in_object { Next::Name } else { Next::Value },
            ..self
        }
    }

    // Before `next`, inside the same brackets.
    fn before(self, next: Next) -> Nesting {
        Nesting { next, ..self }
    }

    // After any element.
    fn after(self, element: TapeElement) -> Nesting {
        match element {
            TapeElement::StartObject(_) => self.entered(true),
            TapeElement::StartList(_) => self.entered(false),
            TapeElement::EndObject(_) | TapeElement::EndList(_) => self.left().passed(),
            TapeElement::I64(_) => self.before(Next::LowerHalf),
            _ if self.next == Next::Name => self.before(Next::Value),
            _ => self.passed(),
        }
    }

    // How many brackets stand around the element: a closing one is not around itself.
    fn around(self, element: TapeElement) -> usize {
        let closes = matches!(element, TapeElement::EndObject(_) | TapeElement::EndList(_));
        self.depth.saturating_sub(usize::from(closes))
    }
}

// The letter and the number of an element, as they lie on the tape. A tuple, for they are two columns.
fn stored(element: TapeElement) -> (char, i64) {
    match element {
        TapeElement::StartObject(end) => ('{', i64::from(end)),
        TapeElement::EndObject(start) => ('}', i64::from(start)),
        TapeElement::StartList(end) => ('[', i64::from(end)),
        TapeElement::EndList(start) => (']', i64::from(start)),
        TapeElement::String(k) => ('s', i64::from(k)),
        TapeElement::Number(k) => ('n', i64::from(k)),
        TapeElement::I64(upper) => ('j', i64::from(upper)),
        TapeElement::I32(n) => ('i', i64::from(n)),
        TapeElement::True => ('t', 0),
        TapeElement::False => ('f', 0),
        TapeElement::Null => ('z', 0),
    }
}

impl fmt::Display for Word<TapeElement> {
    fn fmt<W: fmt::Write>(&self, f: &mut fmt::Formatter<W>) -> fmt::Result {
        f.pad(match self.0 {
            TapeElement::StartObject(_) => "object",
            TapeElement::StartList(_) => "list",
            TapeElement::String(_) => "string",
            TapeElement::Number(_) => "number",
            TapeElement::I64(_) | TapeElement::I32(_) => "whole number",
            TapeElement::True | TapeElement::False => "boolean",
            TapeElement::Null => "null",
            TapeElement::EndObject(_) => "end of an object",
            TapeElement::EndList(_) => "end of a list",
        })
    }
}

// Element `at` of a tape.
#[derive(Clone, Copy)]
struct Line<'a> {
    tape: Tape<'a>,
    at: u32,
    nesting: Nesting,
    ghost within: { at < element_count (view_of tape).elements },
}

impl<'a> Line<'a> {
    // The text of a string or a number, as much of it as there is room for.
    fn text(self, room: usize) -> Shown<'a> {
        let text = match self.tape.get(self.at) {
            TapeElement::String(k) | TapeElement::Number(k) => self.tape.get_string(k),
            _ => "",
        };
        Shown { text, room }
    }

    // The element as JSON has it.
    fn write_text<W: fmt::Write>(self, f: &mut fmt::Formatter<W>, room: usize) -> fmt::Result {
        let text = self.text(room);
        match self.tape.get(self.at) {
            TapeElement::StartObject(_) => f.write_str("{"),
            TapeElement::EndObject(_) => f.write_str("}"),
            TapeElement::StartList(_) => f.write_str("["),
            TapeElement::EndList(_) => f.write_str("]"),
            TapeElement::String(_) if self.nesting.next == Next::Name => write!(f, "\"{text}\":"),
            TapeElement::String(_) => write!(f, "\"{text}\""),
            TapeElement::Number(_) => write!(f, "{text}"),
            TapeElement::I64(_) => match self.tape.element(self.at) {
                Element::I64(n) => write!(f, "{n}"),
                _ => Ok(()),
            },
            TapeElement::I32(_) if self.nesting.next == Next::LowerHalf => {
                f.write_str("(lower half)")
            }
            TapeElement::I32(n) => write!(f, "{n}"),
            TapeElement::True => f.write_str("true"),
            TapeElement::False => f.write_str("false"),
            TapeElement::Null => f.write_str("null"),
        }
    }
}

// Past ten brackets a text is not moved further to the right.
impl fmt::Display for Line<'_> {
    fn fmt<W: fmt::Write>(&self, f: &mut fmt::Formatter<W>) -> fmt::Result {
        let Line { tape, at, nesting } = *self;
        let element = tape.get(at);
        let (letter, number) = stored(element);
        let around = nesting.around(element);
        let columns = 2 * around.min(10);
        write!(
            f,
            "{at:>8}  {around:>4}  {letter:<6}  {number:>11}  {:columns$}",
            ""
        )?;
        self.write_text(f, 38 - columns)
    }
}

// The elements of a tape in their order.
#[derive(Clone, Copy)]
pub struct Elements<'a>(pub Tape<'a>);

impl fmt::Display for Elements<'_> {
    fn fmt<W: fmt::Write>(&self, f: &mut fmt::Formatter<W>) -> fmt::Result {
        let Elements(tape) = *self;
        let cut = Cut {
            count: tape.count(),
            things: "elements",
        };
        writeln!(f, "   index  open  letter       number  text")?;
        let mut nesting = Nesting::default();
        for at in 0..cut.listed() as u32 {
            let line = Line { tape, at, nesting };
            writeln!(f, "{line}")?;
            nesting = nesting.after(tape.get(at));
        }
        write!(f, "{cut}")
    }
}

// The positions of a tape's rows: the values that stand in no other.
pub fn top_values(heap: Global, tape: Tape) -> Result<Vec<u32>, AllocError>
    ensures { IfOk result (λ v. v.items ≡ onward (view_of tape.entry) 1 (element_count (view_of tape.entry).elements)) }
{
    tape.values().collect(heap)
}

// The rows at the given positions of a tape: how many elements each has, and its kind.
#[derive(Clone, Copy)]
pub struct Rows<'a> {
    pub tape: Tape<'a>,
    pub positions: &'a [u32],
}

impl fmt::Display for Rows<'_> {
    fn fmt<W: fmt::Write>(&self, f: &mut fmt::Formatter<W>) -> fmt::Result {
        let Rows { tape, positions } = *self;
        let cut = Cut {
            count: positions.len(),
            things: "rows",
        };
        writeln!(f, "     row  position  elements  kind")?;
        for (row, at) in positions[..cut.listed()].iter().enumerate() {
            let at = *at;
            write!(f, "{row:>8}  {at:>8}  ")?;
            if tape.is_position(at) {
                let elements = tape.next(at) - at;
                let kind = Word(tape.get(at));
                writeln!(f, "{elements:>8}  {kind}")?;
            } else {
                writeln!(f, "no position of this tape")?;
            }
        }
        write!(f, "{cut}")
    }
}
