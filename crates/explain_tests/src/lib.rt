// Texts of faults: the expected ones are those that arrow-json 60.1.0 gave for the same schemas and tapes.
#![tactic(auto)]

#[cfg(test)]
mod refused;
#[cfg(test)]
mod texts;

use explain::explain;
use schema::Schema;
use schema::settings::Settings;
use slip::Fault;
use std::alloc::{AllocError, Global};
use tape::Tape;
use thousandths::Thousandths;

// A schema: each node with its letter, its end, its count, and where its name ends; and the names, one after another.
#[derive(Clone, Copy)]
pub struct Nodes<'a> {
    pub records: &'a [(u8, u8, u8, u8)],
    pub names: &'a [u8],
}

// A tape, its elements as letters and numbers, and where each text ends; and a fault with its text.
#[derive(Clone, Copy)]
pub struct Case<'a> {
    pub elements: &'a str,
    pub texts: &'a str,
    pub ends: &'a [u8],
    pub list_rows: bool,
    pub fault: Fault,
    pub expected: &'a str,
}

// The bytes of a schema's records; all nodes but the first are nullable.
fn schema_bytes(heap: Global, nodes: Nodes) -> Result<Vec<u8>, AllocError> {
    let mut bytes = Vec::new(heap);
    let mut start = 0u8;
    for (k, n) in nodes.records.iter().enumerate() {
        let flag = u8::from(k > 0);
        let size = n.3.saturating_sub(start);
        bytes.extend_from_slice(&[
            n.0, flag, 0, 0, n.1, 0, 0, 0, start, 0, 0, 0, size, 0, n.2, 0,
        ])?;
        start = n.3;
    }
    Ok(bytes)
}

// One more element at the end.
fn push(bytes: &mut Vec<u8>, letter: u8, number: u32) -> Result<(), AllocError> {
    bytes.extend_from_slice(&[letter, 0, 0, 0])?;
    bytes.extend_from_slice(&number.to_le_bytes())
}

// The bytes of a tape's elements.
fn element_bytes(heap: Global, elements: &str) -> Result<Vec<u8>, AllocError> {
    let mut bytes = Vec::new(heap);
    let mut letter = 0;
    let mut number = 0u32;
    for b in elements.as_bytes() {
        match *b {
            b' ' => {
                push(&mut bytes, letter, number)?;
                number = 0;
            }
            b'0'..=b'9' => number = number.wrapping_mul(10).wrapping_add(u32::from(*b - b'0')),
            _ => letter = *b,
        }
    }
    push(&mut bytes, letter, number)?;
    Ok(bytes)
}

// The bytes of a tape's offsets.
fn offset_bytes(heap: Global, ends: &[u8]) -> Result<Vec<u8>, AllocError> {
    let mut bytes = Vec::new(heap);
    bytes.extend_from_slice(&[0, 0, 0, 0])?;
    for end in ends {
        bytes.extend_from_slice(&[*end, 0, 0, 0])?;
    }
    Ok(bytes)
}

// The bytes that a schema and a case stand for.
#[derive(Drop)]
struct Made {
    records: Vec<u8>,
    elements: Vec<u8>,
    offsets: Vec<u8>,
}

impl Made {
    fn new<'a>(heap: Global, nodes: Nodes<'a>, case: Case<'a>) -> Result<Made, AllocError> {
        Ok(Made {
            records: schema_bytes(heap, nodes)?,
            elements: element_bytes(heap, case.elements)?,
            offsets: offset_bytes(heap, case.ends)?,
        })
    }

    // With the bytes that need not be made.
    fn bytes<'a>(&'a self, nodes: Nodes<'a>, case: Case<'a>) -> Bytes<'a> {
        Bytes {
            records: self.records.as_slice(),
            names: nodes.names,
            elements: self.elements.as_slice(),
            texts: case.texts.as_bytes(),
            offsets: self.offsets.as_slice(),
        }
    }
}

// The bytes of a schema and a tape.
#[derive(Clone, Copy)]
pub struct Bytes<'a> {
    records: &'a [u8],
    names: &'a [u8],
    elements: &'a [u8],
    texts: &'a [u8],
    offsets: &'a [u8],
}

// Opens both, and explains.
fn told(bytes: Bytes, list_rows: bool, fault: Fault, text: &mut [u8]) -> Result<usize, Fault> {
    let settings = Settings {
        coerce: false,
        strict: true,
        lenient: false,
        list_rows,
    };
    let schema = Schema::open(bytes.records, bytes.names)?;
    let tape = Tape::open(bytes.elements, bytes.texts, bytes.offsets)?;
    explain(schema, settings, &Thousandths {}, tape, fault, text)
}

// Whether just the text of the case is written into an area of sevens.
fn writes(bytes: Bytes, case: Case, area: &mut [u8]) -> bool {
    match told(bytes, case.list_rows, case.fault, area) {
        Ok(n) if n <= area.len() => {
            n == case.expected.len()
                && &area[..n] == case.expected.as_bytes()
                && all_sevens(&area[n..])
        }
        _ => false,
    }
}

// Whether the area gets this refusal, and stays as it was.
fn stays(bytes: Bytes, fault: Fault, refusal: Fault, area: &mut [u8]) -> bool {
    told(bytes, false, fault, area) == Err(refusal) && all_sevens(area)
}

fn all_sevens(area: &[u8]) -> bool {
    area.iter().all(|b| *b == 7)
}

// Whether the fault has just its text, in an area of its size and in a larger one.
fn tells<'a>(heap: Global, nodes: Nodes<'a>, case: Case<'a>) -> Result<bool, AllocError> {
    let made = Made::new(heap, nodes, case)?;
    let bytes = made.bytes(nodes, case);
    let mut exact = [7u8; 256];
    let mut large = [7u8; 256];
    let size = case.expected.len();
    Ok(size <= 256 && writes(bytes, case, &mut exact[..size]) && writes(bytes, case, &mut large))
}

// Whether a fault gets this refusal in an area of so many bytes, all of which stay.
fn refuses<'a>(
    heap: Global,
    nodes: Nodes<'a>,
    case: Case<'a>,
    fault: Fault,
    room: usize,
    refusal: Fault,
) -> Result<bool, AllocError> {
    let made = Made::new(heap, nodes, case)?;
    let mut area = [7u8; 256];
    Ok(room <= 256 && stays(made.bytes(nodes, case), fault, refusal, &mut area[..room]))
}
