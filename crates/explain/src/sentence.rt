// What is wrong: the sentence of each fault that has one.
use crate::element::Shown;
use crate::writer::Writer;

// What is wrong, with all that the sentence tells of it.
#[derive(Clone, Copy)]
pub(crate) enum Sentence<'a> {
    WrongKind { word: &'a str, element: Shown<'a> },
    UnknownColumn { name: &'a str },
    ExtraColumn { fields: usize },
    FewColumns { columns: usize, fields: usize },
    WrongCount { wanted: usize, found: usize },
}

impl Sentence<'_> {
    ghost use Rattle.explain.specs.Puts.{Puts};
    ghost use Rattle.explain.specs.Said.{said};

    // Puts the sentence.
    pub(crate) fn put(self, w: &mut Writer)
        ensures { Puts (said self.entry) w.old w.new }
    {
        match self {
            Sentence::WrongKind { word, element } => {
                w.put(b"expected ");
                w.put(word.as_bytes());
                w.put(b" got ");
                element.put(w);
            }
            Sentence::UnknownColumn { name } => {
                w.put(b"column '");
                w.put(name.as_bytes());
                w.put(b"' missing from schema");
            }
            Sentence::ExtraColumn { fields } => {
                w.put(b"found extra columns for ");
                w.number(fields);
                w.put(b" fields");
            }
            Sentence::FewColumns { columns, fields } => {
                w.put(b"found ");
                w.number(columns);
                w.put(b" columns for ");
                w.number(fields);
                w.put(b" fields");
            }
            Sentence::WrongCount { wanted, found } => {
                w.put(b"Incorrect number of elements for FixedSizeList, expected ");
                w.number(wanted);
                w.put(b" but got ");
                w.number(found);
            }
        }
    }
}
