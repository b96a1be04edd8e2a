// A shelf: a page of bytes that holds batches end to end.
#![tactic(auto)]

ghost use Rattle.std.specs.Prelude.{◌≡◌, ℕ, ◌+◌, ◌-◌, ◌*◌, ◌^◌, ◌<◌, ◌≤◌, [], length, replicate, Decides, IfOk, IfErr, IsTrue, IsFalse, cond, take, ◌==◌};
ghost use Rattle.slip.specs.Slips.{Slip, answer_of, then, got, refuse, not_there};
ghost use Rattle.tape.specs.Opened.{view_of};
ghost use Rattle.schema.specs.Tree.{Node, kind_of};
ghost use Rattle.schema.specs.Opened.{TreeOf, NodeOf, size_of};
ghost use Rattle.batch.specs.Cells.{triple};
ghost use Rattle.laws.specs.Shelf.{bad_position, is_full, shelve, used};
ghost use Rattle.laws.specs.Calls.{Shelve, Release, cell_at, release, count};
ghost use Rattle.nodes.specs.Contract.{setup_of};
ghost use Rattle.shelf.specs.Standing.{start_in, Fits, ZerosFrom, Cleared, Writes, Fresh, shape_by};

use arrayvec::ArrayVec;
use batch::cell::{Shape, cell};
use entry::StructRows;
use entry::naming::{Named, StructRowsOf};
use leaf::Leaf;
use leaf::layout::Layout;
use nodes::{Frame, Visit};
use octets::zero;
use schema::Schema;
use schema::kind::{Branch, Kind, LeafKind};
use schema::settings::Settings;
use slip::Fault;
use tape::Tape;
use tape::rows::Rows;
use walk::walk;

// The work list while a Shelve uses it; at its end it holds zeros. The page is not in it: a guard with two `&mut` that are
// both lent to one call gets no proof.
struct Lent<'a> {
    words: &'a mut [u32],
}

impl Drop for Lent<'_> {
    fn drop(self)
        ensures { self.exit.0.now ≡ replicate (length self.entry.words.now) 0 }
    {
        let Lent { words } = self;
        words.fill(0);
    }
}

// Whether a page may be so long: at most 2^24 bytes, and a multiple of 8.
fn fits(size: usize) -> bool
    ensures { Decides result (Fits size) }
{
    size <= 1 << 24 && size % 8 == 0
}

// Zeroes a page for a shelf: at most 2^24 bytes, and a multiple of 8.
pub fn clear(page: &mut [u8]) -> Result<(), Fault>
    ensures { Cleared page.old page.new result }
{
    if !fits(page.len()) {
        return Err(Fault::Full { node: 0 });
    }
    zero(page, 0, page.len());
    Ok(())
}

// The first entry that is no position is refused.
fn check_positions(tape: Tape<'_>, positions: &[u32]) -> Result<(), Fault>
    ensures { answer_of result ≡ bad_position (view_of tape.entry) 0 positions.now }
{
    match positions.iter().position(|p| !tape.is_position(*p)) {
        Some(index) => Err(Fault::BadPosition { index }),
        None => Ok(()),
    }
}

// Walks from the root, and writes a batch at the start of the area; a refusal leaves the area as it was.
fn write<X: Leaf, S: StructRows>(
    named: Named<'_, X, S>,
    rows: Rows<'_>,
    work: &mut [u32],
    area: &mut [u8],
) -> Result<usize, Fault>
    requires few { length rows.positions.now ≤ 2 ^ 24 }
    requires lent { length work.old ≤ 2 ^ 24 }
    requires small { length area.old ≤ 2 ^ 24 }
    requires records { 32 * size_of named.frame.schema ≤ length area.old }
    requires free { area.old ≡ replicate (length area.old) 0 }
    ensures { (root : Node) (size : ℕ) → TreeOf named.entry.frame.schema root → Writes (setup_of named.entry.frame.settings (X.Leaf.meaning named.entry.frame.custom.now) root size) (view_of rows.entry.tape) rows.entry.positions.now (length work.old) area.old area.new result }
{
    let root = Visit {
        node: 0,
        in_force: false,
        rows,
    };
    let mut top = 32 * named.frame.schema.len();
    match walk(named, root, work, area, &mut top) {
        Ok(()) => Ok(top),
        Err(fault) => {
            zero(area, 0, top);
            Err(fault)
        }
    }
}

// How a node's slots are read.
fn shape(schema: Schema<'_>, custom: Layout, node: usize) -> Shape
    requires { node < size_of schema }
    ensures { (t : Node) → NodeOf schema.entry node t → result ≡ shape_by custom (kind_of t) }
{
    let leaf = |layout, wide| Shape::Leaf { layout, wide };
    match schema.kind(node) {
        Kind::Branch(Branch::Struct) => Shape::Struct,
        Kind::Branch(Branch::List { view: false, wide }) => Shape::List { wide },
        Kind::Branch(Branch::List { view: true, wide }) => Shape::View { wide },
        Kind::Branch(Branch::Fixed { .. }) => Shape::Fixed {
            count: schema.count(node) as u16,
        },
        Kind::Branch(Branch::Map) => Shape::Map,
        Kind::Leaf(LeafKind::Text { wide }) => leaf(Layout::Text, wide),
        Kind::Leaf(LeafKind::Boolean) => leaf(Layout::Bit, false),
        Kind::Leaf(LeafKind::Null) => leaf(Layout::None, false),
        Kind::Leaf(LeafKind::Custom) => leaf(custom, false),
    }
}

// Batches on a page, of one schema, one set of settings and one custom leaf.
#[derive(Drop)]
pub struct Shelf<'p, 'a, X> {
    page: &'p mut [u8],
    schema: Schema<'a>,
    settings: Settings,
    custom: &'a X,
    // Where each batch ends.
    ends: ArrayVec<u32, 64>,
    // Whether it is known that what is free of the page is clear.
    clear: bool,
    pub ghost few: { length ends.items ≤ 64 },
    pub ghost inside: { (i : ℕ) → i ≤ length ends.items → start_in ends.items i ≤ length page.now },
    pub ghost rising: { (i : ℕ) → i < length ends.items → start_in ends.items i ≤ start_in ends.items (i + 1) },
    pub ghost cleared: { IsTrue clear → Fits (length page.now) × ZerosFrom page.now (start_in ends.items (length ends.items)) },
}

impl<'p, 'a, X: Leaf> Shelf<'p, 'a, X> {
    ghost use Rattle.shelf.specs.Shelves.{HoldsIn, HoldsSwept, Stands, OfHeld, OfSwept, DoesIn, Keeps, Refused, Freed, Unfit, Room, free_from, swept, page_size, left, kept, nodes_in};

    // A shelf on a page, which holds nothing. No byte is written: where the page fits and is not clear, the first `shelve`
    // clears it.
    pub fn new(
        page: &'p mut [u8],
        schema: Schema<'a>,
        settings: Settings,
        custom: &'a X,
    ) -> Shelf<'p, 'a, X>
        ensures page { result.page.ghost_name ≡ page.entry.ghost_name }
        ensures untouched { result.page.now ≡ page.old }
        ensures schema { result.schema ≡ schema.entry }
        ensures settings { result.settings ≡ settings }
        ensures custom { result.custom ≡ custom.entry }
        ensures holds { (root : Node) → TreeOf schema.entry root → Fresh page.old → HoldsIn (setup_of settings (X.Leaf.meaning custom.now) root (length page.old)) result [] }
        ensures swept { (root : Node) → TreeOf schema.entry root → Fits (length page.old) → HoldsSwept (setup_of settings (X.Leaf.meaning custom.now) root (length page.old)) result [] }
    {
        Shelf {
            page,
            schema,
            settings,
            custom,
            ends: ArrayVec::new(),
            clear: false,
        }
    }

    // Where batch `i` begins; behind the last, where the free part does.
    fn start(&self, i: usize) -> usize
        requires { i ≤ length self.now.ends.items }
        ensures value { result ≡ start_in self.now.ends.items i }
        ensures within { result ≤ length self.now.page.now }
    {
        if i == 0 { 0 } else { self.ends[i - 1] as usize }
    }

    // Where a batch begins and ends.
    fn bounds(&self, batch: usize) -> (usize, usize)
        requires { batch < length self.now.ends.items }
        ensures from { result.0 ≡ start_in self.now.ends.items batch }
        ensures to { result.1 ≡ start_in self.now.ends.items (batch + 1) }
        ensures rises { result.0 ≤ result.1 }
        ensures within { result.1 ≤ length self.now.page.now }
    {
        (self.start(batch), self.start(batch + 1))
    }

    // Where the last batch ends, and the free part begins.
    fn end(&self) -> usize
        ensures value { result ≡ start_in self.now.ends.items (length self.now.ends.items) }
        ensures within { result ≤ length self.now.page.now }
    {
        self.start(self.ends.len())
    }

    // How many bytes are free.
    fn free(&self) -> usize
        ensures value { result ≡ left self.now }
        ensures held { OfHeld X.Leaf.meaning self.now (λ st held. result ≡ st.size - used st held) }
    {
        self.page.len() - self.end()
    }

    // Whether positions, work list or batches are too many, or the records have no space.
    fn is_full(&self, positions: usize, lent: usize) -> bool
        ensures held { OfHeld X.Leaf.meaning self.now (λ st held. result ≡ is_full st held positions lent) }
        ensures room { IsFalse result → Room self.now positions lent }
    {
        positions > 65_535
            || lent > 1 << 24
            || self.ends.is_full()
            || self.free() < 32 * self.schema.len()
    }

    // Clears what is free of the page, unless it is clear, and answers whether the page fits; one that does not is left as it
    // is.
    fn sweep(&mut self) -> bool
        ensures fits { Decides result (Fits (page_size self.old)) }
        ensures swept { IsTrue result → self.new.page.now ≡ swept self.old }
        ensures left { IsFalse result → self.new.page.now ≡ self.old.page.now }
        ensures batches { self.new.ends.items ≡ self.old.ends.items }
        ensures keeps { Keeps self.old self.new }
    {
        if self.clear {
            return true;
        }
        let size = self.page.len();
        if !fits(size) {
            return false;
        }
        let end = self.end();
        zero(&mut *self.page, end, size);
        self.clear = true;
        true
    }

    // Adds a batch of the rows at some positions, where what is free is clear; the work list is left as it falls.
    fn add<S: StructRowsOf<'a>>(
        &mut self,
        tape: Tape<'a>,
        positions: &[u32],
        work: &mut [u32],
    ) -> Result<usize, Fault>
        requires fine { got tt ≡ bad_position (view_of tape) 0 positions.now }
        requires small { page_size self.old ≤ 2 ^ 24 }
        requires clear { ZerosFrom self.old.page.now (free_from self.old) }
        ensures does { OfHeld X.Leaf.meaning self.old (λ st held. DoesIn st held self.new (Shelve (view_of tape.entry) positions.now (length work.old)) (shelve st held (view_of tape.entry) positions.now (length work.old)) (answer_of result)) }
        ensures added { IfOk result (λ n. (n ≡ kept self.old) × (kept self.new ≡ n + 1)) }
        ensures refused { IfErr result (λ _. (self.new.ends.items ≡ self.old.ends.items) × (self.new.page.now ≡ self.old.page.now)) }
        ensures keeps { Keeps self.old self.new }
    {
        if self.is_full(positions.len(), work.len()) {
            return Err(Fault::Full { node: 0 });
        }
        let number = self.ends.len();
        let from = self.end();
        let names = S::reader_of(self.schema);
        let named = Named {
            frame: Frame {
                schema: self.schema,
                settings: self.settings,
                custom: self.custom,
            },
            names: &names,
        };
        let rows = Rows { tape, positions };
        let size = write(named, rows, work, &mut self.page[from..])?;
        self.ends.push((from + size) as u32);
        Ok(number)
    }

    // Adds a batch of the rows at some positions, and answers its number. What is free of the page is cleared first, where it
    // is not known to be clear, so it may hold anything; a page that does not fit is full, where no position is bad. The work
    // list holds zeros afterwards.
    pub fn shelve<S: StructRowsOf<'a>>(
        &mut self,
        tape: Tape<'a>,
        positions: &[u32],
        work: &mut [u32],
    ) -> Result<usize, Fault>
        ensures does { OfHeld X.Leaf.meaning self.old (λ st held. DoesIn st held self.new (Shelve (view_of tape.entry) positions.now (length work.old)) (shelve st held (view_of tape.entry) positions.now (length work.old)) (answer_of result)) }
        ensures swept { OfSwept X.Leaf.meaning self.old (λ st held. DoesIn st held self.new (Shelve (view_of tape.entry) positions.now (length work.old)) (shelve st held (view_of tape.entry) positions.now (length work.old)) (answer_of result)) }
        ensures added { IfOk result (λ n. (n ≡ kept self.old) × (kept self.new ≡ n + 1)) }
        ensures bad { (s : Slip) → bad_position (view_of tape.entry) 0 positions.now ≡ refuse s → answer_of result ≡ refuse s }
        ensures refused { IfErr result (λ _. Refused self.old self.new) }
        ensures unfit { (Fits (page_size self.old) → ⊥) → Unfit self.old self.new (bad_position (view_of tape.entry) 0 positions.now) (answer_of result) }
        ensures zeroed { work.new ≡ replicate (length work.old) 0 }
        ensures keeps { Keeps self.old self.new }
    {
        let guard = Lent { words: work };
        let fits = self.sweep();
        check_positions(tape, positions)?;
        if !fits {
            return Err(Fault::Full { node: 0 });
        }
        self.add::<S>(tape, positions, &mut *guard.words)
    }

    // `shelve` for a shelf that stands: what is free of its page is clear, and is not cleared again.
    pub fn shelve_standing<S: StructRowsOf<'a>>(
        &mut self,
        tape: Tape<'a>,
        positions: &[u32],
        work: &mut [u32],
    ) -> Result<usize, Fault>
        requires { Stands X.Leaf.meaning self.old }
        ensures does { OfHeld X.Leaf.meaning self.old (λ st held. DoesIn st held self.new (Shelve (view_of tape.entry) positions.now (length work.old)) (shelve st held (view_of tape.entry) positions.now (length work.old)) (answer_of result)) }
        ensures zeroed { work.new ≡ replicate (length work.old) 0 }
        ensures keeps { Keeps self.old self.new }
    {
        let guard = Lent { words: work };
        check_positions(tape, positions)?;
        self.add::<S>(tape, positions, &mut *guard.words)
    }

    // What stands in a slot of a node of a batch.
    // The answer is the three numbers of a `Content`, a kind and two that belong to it: callers of other languages read it.
    pub fn cell(&self, batch: usize, node: usize, slot: usize) -> Result<(u32, usize, usize), Fault>
        ensures behind { kept self.now ≤ batch → answer_of result ≡ refuse not_there }
        ensures nowhere { nodes_in self.now ≤ node → answer_of result ≡ refuse not_there }
        ensures kinds { IfOk result (λ c. c.0 ≤ 4) }
        ensures held { OfHeld X.Leaf.meaning self.now (λ st held. answer_of result ≡ then (cell_at st held batch node slot) (λ c. got (triple c))) }
    {
        if batch >= self.ends.len() || node >= self.schema.len() {
            return Err(Fault::NotThere);
        }
        let (from, to) = self.bounds(batch);
        let shape = shape(self.schema, self.custom.layout(), node);
        let content = cell(&self.page[from..to], from, shape, node, slot)?;
        Ok(content.into())
    }

    // Frees the newest batch, and answers its number.
    pub fn release(&mut self) -> Result<usize, Fault>
        ensures does { OfHeld X.Leaf.meaning self.old (λ st held. DoesIn st held self.new Release (release st held) (answer_of result)) }
        ensures said { answer_of result ≡ cond (kept self.old == 0) (refuse not_there) (got (kept self.old - 1)) }
        ensures freed { Freed self.old self.new }
        ensures keeps { Keeps self.old self.new }
    {
        let Some(newest) = self.ends.len().checked_sub(1) else {
            return Err(Fault::NotThere);
        };
        let (from, to) = self.bounds(newest);
        zero(&mut *self.page, from, to);
        self.ends.truncate(newest);
        Ok(newest)
    }

    // Batches held, and free bytes.
    pub fn count(&self) -> (usize, usize)
        ensures held { OfHeld X.Leaf.meaning self.now (λ st held. result ≡ count st held) }
        ensures batches { result.0 ≡ kept self.now }
        ensures free { result.1 ≡ left self.now }
    {
        (self.ends.len(), self.free())
    }
}
