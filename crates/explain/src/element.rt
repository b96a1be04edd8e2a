// An element as text, with the elements inside it.
ghost use Rattle.std.specs.Prelude.{◌≡◌, true};
ghost use Rattle.tape.specs.Layout.{the};
ghost use Rattle.tape.specs.Opened.{view_of};
ghost use Rattle.tape.specs.View.{is_at, is_position};

use crate::writer::Writer;
use tape::Tape;
use tape::element::Element;

// The element at a position of a tape, as it is shown: at most so many brackets in a row are opened.
#[derive(Clone, Copy)]
pub(crate) struct Shown<'a> {
    pub tape: Tape<'a>,
    pub p: u32,
    pub depth: usize,
    pub ghost position: { is_position (view_of tape) p ≡ true },
}

impl Shown<'_> {
    ghost use Rattle.explain.specs.Puts.{Puts};
    ghost use Rattle.explain.specs.Said.{shown};

    // Puts the element.
    #[cycle(put_put_list_put_object)]
    pub(crate) fn put(self, w: &mut Writer)
        ensures { Puts (shown self.entry) w.old w.new }
    {
        match self.tape.element(self.p) {
            Element::Object => self.put_object(w),
            Element::List => self.put_list(w),
            Element::String(s) => w.quoted(s),
            Element::Number(s) => w.put(s),
            Element::I64(n) => w.number(n),
            Element::I32(n) => w.number(n),
            Element::True => w.put(b"true"),
            Element::False => w.put(b"false"),
            Element::Null => w.put(b"null"),
        }
    }

    // Puts the list, with a comma between its items.
    #[cycle(put_put_list_put_object)]
    fn put_list(self, w: &mut Writer)
        requires { is_at (view_of self.tape) (the "[") self.p ≡ true }
        ensures { Puts (shown self.entry) w.old w.new }
    {
        w.put(b"[");
        if self.depth > 0 {
            let mut between: &[u8] = b"";
            for item in self.tape.entries(self.p) {
                w.put(between);
                let item = Shown {
                    tape: self.tape,
                    p: item,
                    depth: self.depth - 1,
                };
                item.put(w);
                between = b", ";
            }
        }
        w.put(b"]");
    }

    // Puts the object: a colon between a name and its value, and nothing between two pairs.
    #[cycle(put_put_list_put_object)]
    fn put_object(self, w: &mut Writer)
        requires { is_at (view_of self.tape) (the "{") self.p ≡ true }
        ensures { Puts (shown self.entry) w.old w.new }
    {
        w.put(b"{");
        if self.depth > 0 {
            for (name, value) in self.tape.pairs(self.p) {
                w.quoted(self.tape.words(name).as_bytes());
                w.put(b": ");
                let value = Shown {
                    tape: self.tape,
                    p: value,
                    depth: self.depth - 1,
                };
                value.put(w);
            }
        }
        w.put(b"}");
    }
}
