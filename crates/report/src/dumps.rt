// Dumps in files: reading them, opening them and printing what is in them.
use listing::schemas::Nodes;
use listing::sizes::{Bytes, Records};
use listing::slips::Slip;
use listing::tapes::{Elements, Rows, top_values};
use schema::Schema;
use slip::Fault;
use std::fs;
use tape::Tape;

// The endings of a tape dump's files.
pub const TAPE: [&str; 3] = ["elements", "texts", "offsets"];

// The endings of a schema dump's files.
pub const SCHEMA: [&str; 2] = ["records", "names"];

// What came of a dump.
#[derive(Clone, Copy)]
pub enum Outcome {
    Opened,
    Refused,
    Unread,
}

// Whether any file is there that has the prefix and one of the endings.
pub fn any_there(rt: &HostRuntime, prefix: &str, endings: &[&str]) -> anyhow::Result<bool> {
    for ending in endings {
        let path = format!(in rt.alloc(); "{prefix}.{ending}")?;
        if fs::exists(rt, path.as_str())? {
            return Ok(true);
        }
    }
    Ok(false)
}

// The bytes of a file, or a line that tells why there are none.
fn read(rt: &HostRuntime, prefix: &str, ending: &str) -> anyhow::Result<Option<Vec<u8>>> {
    let path = format!(in rt.alloc(); "{prefix}.{ending}")?;
    match fs::read(rt, path.as_str()) {
        Ok(bytes) => Ok(Some(bytes)),
        Err(e) => {
            println!(rt; "  {path} cannot be read: {e}")?;
            Ok(None)
        }
    }
}

// Prints the slip of a refusal.
fn print_slip(rt: &HostRuntime, fault: Fault) -> anyhow::Result<Outcome> {
    rt.print(Slip(fault))?;
    Ok(Outcome::Refused)
}

// Prints the tape in three slices.
fn print_tape<'a>(
    rt: &HostRuntime,
    elements: &'a [u8],
    texts: &'a [u8],
    offsets: &'a [u8],
) -> anyhow::Result<Outcome> {
    println!(rt;
        "{}\n{}\n{}\n",
        Records::new("elements", elements.len(), 8),
        Bytes::new("texts", texts.len()),
        Records::new("offsets", offsets.len(), 4)
    )?;
    match Tape::open(elements, texts, offsets) {
        Ok(tape) => {
            let found = top_values(rt.alloc(), tape)?;
            let elements = Elements(tape);
            let rows = Rows {
                tape,
                positions: found.as_slice(),
            };
            print!(rt; "  OPENED: the bytes follow every rule of a tape\n\n{elements}\n{rows}")?;
            Ok(Outcome::Opened)
        }
        Err(fault) => print_slip(rt, fault),
    }
}

// Reads and prints the tape dump with this prefix.
pub fn tape(rt: &HostRuntime, prefix: &str) -> anyhow::Result<Outcome> {
    let elements = read(rt, prefix, "elements")?;
    let texts = read(rt, prefix, "texts")?;
    let offsets = read(rt, prefix, "offsets")?;
    let (Some(elements), Some(texts), Some(offsets)) = (elements, texts, offsets) else {
        return Ok(Outcome::Unread);
    };
    print_tape(
        rt,
        elements.as_slice(),
        texts.as_slice(),
        offsets.as_slice(),
    )
}

// Prints the schema in two slices.
fn print_schema<'a>(
    rt: &HostRuntime,
    records: &'a [u8],
    names: &'a [u8],
) -> anyhow::Result<Outcome> {
    println!(rt;
        "{}\n{}\n",
        Records::new("records", records.len(), 16),
        Bytes::new("names", names.len())
    )?;
    match Schema::open(records, names) {
        Ok(schema) => {
            let nodes = Nodes(schema);
            print!(rt; "  OPENED: the records hold a tree\n\n{nodes}")?;
            Ok(Outcome::Opened)
        }
        Err(fault) => print_slip(rt, fault),
    }
}

// Reads and prints the schema dump with this prefix.
pub fn schema(rt: &HostRuntime, prefix: &str) -> anyhow::Result<Outcome> {
    let records = read(rt, prefix, "records")?;
    let names = read(rt, prefix, "names")?;
    let (Some(records), Some(names)) = (records, names) else {
        return Ok(Outcome::Unread);
    };
    print_schema(rt, records.as_slice(), names.as_slice())
}
