// How a leaf's values lie in a column, and what a leaf replies.

// The one layout that a leaf has.
#[derive(Clone, Copy, PartialEq, Eq, Debug)]
pub enum Layout {
    // No values: every slot is null.
    None,
    // A bit for each slot.
    Bit,
    // Bytes of any number, cut by offsets.
    Text,
    // Eight bytes for each slot.
    Eight,
}

// What a leaf makes of an element: null, one of two refusals, or a value of so many bytes.
#[derive(Clone, Copy, PartialEq, Eq, Debug)]
pub enum Reply {
    Null,
    Conflict,
    Misfit,
    Value(usize),
}
