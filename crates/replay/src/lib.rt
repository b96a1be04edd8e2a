// A list of calls on one new shelf, from raw bytes.
#![tactic(auto)]

ghost use Rattle.std.specs.Prelude.{◌≡◌, ℕ, length};
ghost use Rattle.tape.specs.Answer.{OpensTo};
ghost use Rattle.laws.specs.Calls.{Call as Made};
ghost use Rattle.shelf.specs.Shelves.{Stands, OfHeld, Keeps};
ghost use Rattle.replay.specs.Replay.{said, view_in, Asks, Makes, Replays};

use entry::naming::StructRowsOf;
use leaf::Leaf;
use schema::Schema;
use schema::settings::Settings;
use shelf::{Shelf, clear};
use slip::Fault;
use tape::Tape;

// The bytes of a tape.
#[derive(Clone, Copy, PartialEq, Eq, Debug)]
pub struct TapeBytes<'t> {
    pub elements: &'t [u8],
    pub texts: &'t [u8],
    pub offsets: &'t [u8],
}

impl<'t> TapeBytes<'t> {
    // The tape, where the bytes follow the rules.
    fn open(self) -> Result<Tape<'t>, Fault>
        ensures { OpensTo (view_in self.entry) result }
    {
        Tape::open(self.elements, self.texts, self.offsets)
    }
}

// A call: a Shelve has the bytes of its tape, its positions, and how many entries of the work list it is lent.
#[derive(Clone, Copy, PartialEq, Eq, Debug)]
pub enum Call<'t> {
    Count,
    Release,
    Cell {
        batch: usize,
        node: usize,
        slot: usize,
    },
    Shelve {
        tape: TapeBytes<'t>,
        positions: &'t [u32],
        lent: usize,
    },
}

// What a call gives where it is not refused.
#[derive(Clone, Copy, PartialEq, Eq, Debug)]
pub enum Answer {
    // The number of a batch.
    Batch(usize),
    // The kind of what stands in a slot, and two numbers.
    Cell(u32, usize, usize),
    // Batches held, and free bytes.
    Counts(usize, usize),
}

// Makes one call.
fn make<'a, X: Leaf, S: StructRowsOf<'a>>(
    shelf: &mut Shelf<'_, 'a, X>,
    call: Call<'a>,
    work: &mut [u32],
) -> Result<Answer, Fault>
    requires { Stands X.Leaf.meaning shelf.old }
    ensures makes { OfHeld X.Leaf.meaning shelf.old (λ st held. ((made : Made) × Asks (length work.old) call.entry made × Makes st held shelf.new made (said result))) }
    ensures keeps { Keeps shelf.old shelf.new }
{
    Ok(match call {
        Call::Shelve {
            tape,
            positions,
            lent,
        } => {
            let tape = tape.open()?;
            let lent = lent.min(work.len());
            Answer::Batch(shelf.shelve_standing::<S>(tape, positions, &mut work[..lent])?)
        }
        Call::Cell { batch, node, slot } => {
            let (kind, first, second) = shelf.cell(batch, node, slot)?;
            Answer::Cell(kind, first, second)
        }
        Call::Release => Answer::Batch(shelf.release()?),
        Call::Count => {
            let (batches, free) = shelf.count();
            Answer::Counts(batches, free)
        }
    })
}

// Opens a schema and a page, and makes the calls in order.
pub fn replay<'a, X: Leaf, S: StructRowsOf<'a>>(
    records: &'a [u8],
    names: &'a [u8],
    settings: Settings,
    custom: &'a X,
    page: &mut [u8],
    work: &mut [u32],
    calls: &[Call<'a>],
    answers: &mut [Result<Answer, Fault>],
) -> Result<(), Fault>
    ensures { Replays settings (X.Leaf.meaning custom.now) records.now names.now page.old page.new work.old work.new calls.now answers.old answers.new result }
{
    let schema = Schema::open(records, names)?;
    if answers.len() < calls.len() {
        return Err(Fault::Full { node: 0 });
    }
    clear(page)?;
    let mut shelf = Shelf::new(page, schema, settings, custom);
    // By index: what is written through `iter_mut` would not be known afterwards.
    for (i, call) in calls.iter().enumerate() {
        answers[i] = make::<X, S>(&mut shelf, *call, work);
    }
    work.fill(0);
    Ok(())
}
