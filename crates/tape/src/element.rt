// What the elements of a tape say.

// An element as it lies on the tape: brackets know their partners, texts their numbers.
#[derive(Clone, Copy, PartialEq, Eq, Debug)]
pub enum TapeElement {
    StartObject(u32),
    EndObject(u32),
    StartList(u32),
    EndList(u32),
    String(u32),
    Number(u32),
    I64(i32),
    I32(i32),
    True,
    False,
    Null,
}

// What a leaf sees of an element: its kind, with its text or whole number.
#[derive(Clone, Copy, PartialEq, Eq, Debug)]
pub enum Element<'a> {
    Object,
    List,
    String(&'a [u8]),
    Number(&'a [u8]),
    I64(i64),
    I32(i32),
    True,
    False,
    Null,
}
