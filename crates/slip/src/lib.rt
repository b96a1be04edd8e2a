// Why a call is refused: one fault for each of the twelve refusals.
#![tactic(auto)]

ghost use Rattle.std.specs.Prelude.{◌≡◌, Some};
ghost use Rattle.slip.specs.Slips.{slip_of};
ghost use Rattle.slip.specs.Words.{word_of, text_of};

use std::fmt;

// A refusal, with the values that say what was wrong and where.
#[derive(Clone, Copy, PartialEq, Eq, Debug)]
pub enum Fault {
    // The bytes are no tape.
    TornTape,
    // The bytes are no schema.
    BadSchema,
    // An entry of the list of positions is no position; `index` is the first such entry.
    BadPosition { index: usize },
    // Too little page or work list at a node; 0 before the walk.
    Full { node: usize },
    // An element that a node cannot take.
    WrongKind { node: usize, position: u32 },
    // Under strict, a name that no field has; `name` is the position of the name.
    UnknownColumn { node: usize, name: u32 },
    // Under list rows, an entry past the last field.
    ExtraColumn { node: usize, entry: u32 },
    // Under list rows, fewer entries than fields.
    FewColumns { node: usize, row: u32 },
    // A row of a fixed-size list that has not its count of entries.
    WrongCount { node: usize, row: u32 },
    // A null where the schema allows none, in the child's lowest such slot.
    BareNull { child: usize, slot: usize },
    // A custom leaf's value that does not fit its layout.
    Misfit { node: usize, position: u32 },
    // No such batch, node, slot or fault.
    NotThere,
}

impl Fault {
    // The refusal's number, from 1 to 12.
    pub fn number(self) -> usize
        ensures { result ≡ (slip_of self).number }
    {
        match self {
            Fault::TornTape => 1,
            Fault::BadSchema => 2,
            Fault::BadPosition { .. } => 3,
            Fault::Full { .. } => 4,
            Fault::WrongKind { .. } => 5,
            Fault::UnknownColumn { .. } => 6,
            Fault::ExtraColumn { .. } => 7,
            Fault::FewColumns { .. } => 8,
            Fault::WrongCount { .. } => 9,
            Fault::BareNull { .. } => 10,
            Fault::Misfit { .. } => 11,
            Fault::NotThere => 12,
        }
    }

    // The node that met it, or 0.
    pub fn node(self) -> usize
        ensures { result ≡ (slip_of self).node }
    {
        match self {
            Fault::Full { node }
            | Fault::WrongKind { node, .. }
            | Fault::UnknownColumn { node, .. }
            | Fault::ExtraColumn { node, .. }
            | Fault::FewColumns { node, .. }
            | Fault::WrongCount { node, .. }
            | Fault::Misfit { node, .. } => node,
            Fault::BareNull { child, .. } => child,
            _ => 0,
        }
    }

    // Where: an index of the list of positions, an index of the tape, a slot, or 0.
    pub fn place(self) -> usize
        ensures { result ≡ (slip_of self).place }
    {
        match self {
            Fault::BadPosition { index } => index,
            Fault::WrongKind { position, .. } | Fault::Misfit { position, .. } => position as usize,
            Fault::UnknownColumn { name, .. } => name as usize,
            Fault::ExtraColumn { entry, .. } => entry as usize,
            Fault::FewColumns { row, .. } | Fault::WrongCount { row, .. } => row as usize,
            Fault::BareNull { slot, .. } => slot,
            _ => 0,
        }
    }

    // The refusal's word.
    pub fn word(self) -> &'static str
        ensures { result.now ≡ word_of self }
    {
        match self {
            Fault::TornTape => "torn tape",
            Fault::BadSchema => "bad schema",
            Fault::BadPosition { .. } => "bad position",
            Fault::Full { .. } => "full",
            Fault::WrongKind { .. } => "wrong kind",
            Fault::UnknownColumn { .. } => "unknown column",
            Fault::ExtraColumn { .. } => "extra column",
            Fault::FewColumns { .. } => "few columns",
            Fault::WrongCount { .. } => "wrong count",
            Fault::BareNull { .. } => "bare null",
            Fault::Misfit { .. } => "misfit",
            Fault::NotThere => "not there",
        }
    }
}

impl fmt::Display for Fault {
    ghost output = { λ fault. Some (text_of fault) };

    fn fmt<W: fmt::Write>(&self, f: &mut fmt::Formatter<W>) -> fmt::Result {
        let number = self.number();
        let word = self.word();
        let node = self.node();
        let place = self.place();
        write!(f, "{number} {word}: node {node}, place {place}")
    }
}

impl std::error::Error for Fault {}
