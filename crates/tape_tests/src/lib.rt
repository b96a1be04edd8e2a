// Tapes that open, tapes that are torn, and what is read from them.
#![tactic(auto)]

ghost use Rattle.std.specs.Prelude.{◌<◌};

#[cfg(test)]
mod nested;
#[cfg(test)]
mod reads;
#[cfg(test)]
mod texts;
#[cfg(test)]
mod torn;

use std::alloc::{AllocError, Global};
use tape::Tape;
use tape::element::{Element, TapeElement};

// The bytes of elements, each a letter and a number.
fn elements(heap: Global, records: &[(u8, u32)]) -> Result<Vec<u8>, AllocError> {
    let mut bytes = Vec::new(heap);
    for r in records {
        push(&mut bytes, r.0, r.1)?;
    }
    Ok(bytes)
}

// One more element at the end.
fn push(bytes: &mut Vec<u8>, letter: u8, number: u32) -> Result<(), AllocError> {
    bytes.extend_from_slice(&[letter, 0, 0, 0])?;
    bytes.extend_from_slice(&number.to_le_bytes())
}

// The bytes of offsets.
fn offsets(heap: Global, numbers: &[u32]) -> Result<Vec<u8>, AllocError> {
    let mut bytes = Vec::new(heap);
    for n in numbers {
        bytes.extend_from_slice(&n.to_le_bytes())?;
    }
    Ok(bytes)
}

// Whether these are a tape.
fn opens(
    heap: Global,
    records: &[(u8, u32)],
    texts: &[u8],
    numbers: &[u32],
) -> Result<bool, AllocError> {
    let es = elements(heap, records)?;
    let os = offsets(heap, numbers)?;
    Ok(is_tape(&es, texts, &os))
}

// Whether these bytes are a tape.
fn is_tape<'a>(elements: &'a [u8], texts: &'a [u8], offsets: &'a [u8]) -> bool {
    Tape::open(elements, texts, offsets).is_ok()
}

// `depth` lists, one inside the other, after the first element.
fn deep(heap: Global, depth: u32) -> Result<Vec<u8>, AllocError>
    requires { depth < 1000 }
{
    let mut bytes = Vec::new(heap);
    push(&mut bytes, b'z', 0)?;
    for k in 1..depth + 1 {
        push(&mut bytes, b'[', 2 * depth + 1 - k)?;
    }
    for k in 1..depth + 1 {
        push(&mut bytes, b']', depth + 1 - k)?;
    }
    Ok(bytes)
}

// Whether element `p` is `e`, and the value there ends before `next`.
fn stands(tape: Tape<'_>, p: u32, e: TapeElement, next: u32) -> bool {
    (p as usize) < tape.count() && tape.get(p) == e && tape.next(p) == next
}

// Whether a leaf sees this text at `p`.
fn shows(tape: Tape<'_>, p: u32, text: &[u8]) -> bool {
    if p as usize >= tape.count() {
        return false;
    }
    match tape.element(p) {
        Element::String(s) | Element::Number(s) => s == text,
        _ => false,
    }
}

// Whether a leaf sees this whole number at `p`.
fn holds(tape: Tape<'_>, p: u32, n: i64) -> bool {
    if p as usize >= tape.count() {
        return false;
    }
    match tape.element(p) {
        Element::I64(m) => m == n,
        Element::I32(m) => i64::from(m) == n,
        _ => false,
    }
}
