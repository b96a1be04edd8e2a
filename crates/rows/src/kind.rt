// What the kinds of branches have in common: how a row begins, and what it gives to the children.
ghost use Rattle.std.specs.Prelude.{◌≡◌, ◌+◌, ◌*◌, ◌^◌, ◌≤◌, true, length, replicate, IfOk};
ghost use Rattle.slip.specs.Slips.{answer_of, then, got, is_got};
ghost use Rattle.tape.specs.Opened.{view_of};
ghost use Rattle.tape.specs.View.{is_at, is_position};
ghost use Rattle.schema.specs.Tree.{Fields, many};
ghost use Rattle.schema.specs.declared.kind.Branch.{Branch};
ghost use Rattle.batch.specs.Rows.{letter};
ghost use Rattle.batch.specs.Values.{hides, taken, zeros};
ghost use Rattle.rows.specs.Kinds.{row_in, items_in, row_there, row_size, begins_at};
ghost use Rattle.rows.specs.Filling.{Filled, Positions};

use crate::Reading;
use schema::kind::Branch;
use schema::settings::Settings;
use slip::Fault;

// A row that is not refused: whether it is null, and how many items it has in the children.
// Null is a flag and no Option: a null row has items too, in a struct one, in a fixed-size list its count.
#[derive(Clone, Copy, PartialEq, Eq, Debug)]
pub(crate) struct Row {
    pub(crate) null: bool,
    pub(crate) items: usize,
}

// How the rows of one kind of branch are read.
pub trait RowKind {
    ghost branch: { Self → Branch };

    ghost children: { Self → Fields };

    ghost ready: { Self → Type 0 };

    // What the branch is.
    fn branch(&self) -> Branch
        ensures { result ≡ branch self.now };

    // How many children it has.
    fn kids(&self) -> usize
        requires { ready self.now }
        ensures many { result ≡ many (children self.now) }
        ensures few { result ≤ 64 };

    // The bracket that a row begins with.
    fn bracket(&self, settings: Settings) -> char
        ensures { result ≡ letter settings (branch self.now) };

    // How many items the row at `p`, which begins as it should, has in the children, or why it is refused.
    fn count(&self, reading: Reading<'_>, p: u32) -> Result<usize, Fault>
        requires ready { ready self.now }
        requires few { length reading.rows.positions.now ≤ 2 ^ 24 }
        requires position { is_position (view_of reading.rows.tape) p ≡ true }
        requires begun { is_at (view_of reading.rows.tape) (letter reading.settings (branch self.now)) p ≡ true }
        ensures said { answer_of result ≡ then (row_in reading.entry (branch self.now) (children self.now) p) (λ o. got (length (taken (branch self.now) (zeros (children self.now)) o))) }
        ensures few { IfOk result (λ n. (n ≤ 2 ^ 24) × (many (children self.now) ≡ 0 → n ≤ 1)) };

    // Writes the positions that the row at `p`, which begins as it should, gives to the children, from slot `at` of each on, and counts its items.
    fn put(&self, reading: Reading<'_>, p: u32, work: &mut [u32], stride: usize, at: usize) -> usize
        requires ready { ready self.now }
        requires few { length reading.rows.positions.now ≤ 2 ^ 24 }
        requires position { is_position (view_of reading.rows.tape) p ≡ true }
        requires begun { is_at (view_of reading.rows.tape) (letter reading.settings (branch self.now)) p ≡ true }
        requires accepted { is_got (row_in reading (branch self.now) (children self.now) p) ≡ true }
        requires room { at + length (items_in reading (branch self.now) (children self.now) p) ≤ stride }
        requires lent { many (children self.now) * stride ≤ length work.old }
        ensures count { result ≡ length (items_in reading.entry (branch self.now) (children self.now) p) }
        ensures filled { Filled (many (children self.now)) stride at (items_in reading.entry (branch self.now) (children self.now) p) work.old work.new }
        ensures positions { Positions (view_of reading.entry.rows.tape) (items_in reading.entry (branch self.now) (children self.now) p) };

    // How many items a null row hides.
    fn hides(&self) -> usize
        requires { ready self.now }
        ensures said { result ≡ hides (branch self.now) }
        ensures few { (result ≤ 2 ^ 24) × (many (children self.now) ≡ 0 → result ≤ 1) };

    // Writes the zeros that a null row gives to the children, from slot `at` of each on.
    fn put_null(&self, work: &mut [u32], stride: usize, at: usize)
        requires ready { ready self.now }
        requires room { at + hides (branch self.now) ≤ stride }
        requires lent { many (children self.now) * stride ≤ length work.old }
        ensures { Filled (many (children self.now)) stride at (replicate (hides (branch self.now)) (zeros (children self.now))) work.old work.new };

    // `count` of the row alone, for a reading of however many rows.
    fn count_alone(&self, reading: Reading<'_>, p: u32) -> Result<usize, Fault>
        requires ready { ready self.now }
        requires position { is_position (view_of reading.rows.tape) p ≡ true }
        requires begun { is_at (view_of reading.rows.tape) (letter reading.settings (branch self.now)) p ≡ true }
        ensures said { answer_of result ≡ then (row_in reading.entry (branch self.now) (children self.now) p) (λ o. got (length (taken (branch self.now) (zeros (children self.now)) o))) }
        ensures few { IfOk result (λ n. (n ≤ 2 ^ 24) × (many (children self.now) ≡ 0 → n ≤ 1)) }
    {
        self.count(reading.without_rows(), p)
    }

    // `put` of the row alone, for a reading of however many rows.
    fn put_alone(
        &self,
        reading: Reading<'_>,
        p: u32,
        work: &mut [u32],
        stride: usize,
        at: usize,
    ) -> usize
        requires ready { ready self.now }
        requires position { is_position (view_of reading.rows.tape) p ≡ true }
        requires begun { is_at (view_of reading.rows.tape) (letter reading.settings (branch self.now)) p ≡ true }
        requires accepted { is_got (row_in reading (branch self.now) (children self.now) p) ≡ true }
        requires room { at + length (items_in reading (branch self.now) (children self.now) p) ≤ stride }
        requires lent { many (children self.now) * stride ≤ length work.old }
        ensures count { result ≡ length (items_in reading.entry (branch self.now) (children self.now) p) }
        ensures filled { Filled (many (children self.now)) stride at (items_in reading.entry (branch self.now) (children self.now) p) work.old work.new }
        ensures positions { Positions (view_of reading.entry.rows.tape) (items_in reading.entry (branch self.now) (children self.now) p) }
    {
        self.put(reading.without_rows(), p, work, stride, at)
    }
}

// Whether the row at `p` begins as it should. One that does not is a null row, where one may stand.
fn begins(reading: Reading<'_>, bracket: char, p: u32) -> Result<bool, Fault>
    requires position { is_position (view_of reading.rows.tape) p ≡ true }
    ensures { answer_of result ≡ begins_at reading.entry bracket p }
{
    let tape = reading.rows.tape;
    if tape.is_at(p, bracket) {
        return Ok(true);
    }
    if reading.in_force && (tape.is_at(p, 'z') || reading.settings.lenient) {
        return Ok(false);
    }
    Err(Fault::WrongKind {
        node: reading.node,
        position: p,
    })
}

// What the row at `p` is, or why it is refused.
pub(crate) fn check_row<K: RowKind>(kind: &K, reading: Reading<'_>, p: u32) -> Result<Row, Fault>
    requires ready { K.ready kind.now }
    requires few { length reading.rows.positions.now ≤ 2 ^ 24 }
    requires position { is_position (view_of reading.rows.tape) p ≡ true }
    ensures said { answer_of result ≡ then (row_in reading.entry (K.branch kind.now) (K.children kind.now) p) (λ o. got (row_size (K.branch kind.now) (K.children kind.now) o)) }
    ensures few { IfOk result (λ row. (row.items ≤ 2 ^ 24) × (many (K.children kind.now) ≡ 0 → row.items ≤ 1)) }
{
    if begins(reading, kind.bracket(reading.settings), p)? {
        let items = kind.count(reading, p)?;
        return Ok(Row { null: false, items });
    }
    let items = kind.hides();
    Ok(Row { null: true, items })
}

// Writes the positions that the row at `p` gives to the children, from slot `at` of each on.
pub(crate) fn fill_row<K: RowKind>(
    kind: &K,
    reading: Reading<'_>,
    p: u32,
    work: &mut [u32],
    stride: usize,
    at: usize,
) -> Row
    requires ready { K.ready kind.now }
    requires few { length reading.rows.positions.now ≤ 2 ^ 24 }
    requires position { is_position (view_of reading.rows.tape) p ≡ true }
    requires accepted { is_got (row_in reading (K.branch kind.now) (K.children kind.now) p) ≡ true }
    requires room { at + length (items_in reading (K.branch kind.now) (K.children kind.now) p) ≤ stride }
    requires lent { many (K.children kind.now) * stride ≤ length work.old }
    ensures said { result ≡ row_size (K.branch kind.now) (K.children kind.now) (row_there reading.entry (K.branch kind.now) (K.children kind.now) p) }
    ensures filled { Filled (many (K.children kind.now)) stride at (items_in reading.entry (K.branch kind.now) (K.children kind.now) p) work.old work.new }
    ensures positions { Positions (view_of reading.entry.rows.tape) (items_in reading.entry (K.branch kind.now) (K.children kind.now) p) }
{
    let bracket = kind.bracket(reading.settings);
    if reading.rows.tape.is_at(p, bracket) {
        let items = kind.put(reading, p, work, stride, at);
        return Row { null: false, items };
    }
    kind.put_null(work, stride, at);
    let items = kind.hides();
    Row { null: true, items }
}
