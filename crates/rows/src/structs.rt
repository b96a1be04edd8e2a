// The rows of a struct, by object or by list.
ghost use Rattle.std.specs.Prelude.{◌≡◌, ℕ, ◌+◌, ◌*◌, ◌<◌, true, List, length, replicate};
ghost use Rattle.slip.specs.Slips.{answer_of, then, got, is_got};
ghost use Rattle.tape.specs.Layout.{the};
ghost use Rattle.tape.specs.Opened.{view_of};
ghost use Rattle.tape.specs.View.{is_at, is_position, entries, words_at};
ghost use Rattle.names.specs.Lowest.{lowest};
ghost use Rattle.batch.specs.Rows.{letter, listed, placed};
ghost use Rattle.rows.specs.Kinds.{numbered, named};
ghost use Rattle.rows.specs.Filling.{Spread};
ghost use Rattle.rows.specs.Structs.{fieldwise, item_in, column, with_value, Tied};

use crate::Reading;
use crate::entries::{put_entries, put_zeros};
use crate::kind::RowKind;
use names::NameIndex;
use schema::kind::Branch;
use schema::settings::Settings;
use slip::Fault;
use tape::Tape;

// Whether the list at `p` has an entry for each field.
fn check_entries(reading: Reading<'_>, fields: usize, p: u32) -> Result<(), Fault>
    requires position { is_position (view_of reading.rows.tape) p ≡ true }
    requires list { is_at (view_of reading.rows.tape) (the "[") p ≡ true }
    ensures { answer_of result ≡ then (listed (numbered reading.entry.node) fields p (entries (view_of reading.entry.rows.tape) p)) (λ _. got tt) }
{
    let mut n = 0;
    for entry in reading.rows.tape.entries(p) {
        if n == fields {
            return Err(Fault::ExtraColumn {
                node: reading.node,
                entry,
            });
        }
        n += 1;
    }
    if n < fields {
        return Err(Fault::FewColumns {
            node: reading.node,
            row: p,
        });
    }
    Ok(())
}

// Whether every name of the object at `p` is a field's, which strict asks.
fn check_names<N: NameIndex>(index: &N, reading: Reading<'_>, p: u32) -> Result<(), Fault>
    requires position { is_position (view_of reading.rows.tape) p ≡ true }
    requires object { is_at (view_of reading.rows.tape) (the "{") p ≡ true }
    requires strict { reading.settings.strict ≡ true }
    ensures { (at : List ℕ) → answer_of result ≡ then (placed reading.entry.settings (view_of reading.entry.rows.tape) (numbered reading.entry.node) (N.NameIndex.names index.now) (entries (view_of reading.entry.rows.tape) p) at) (λ _. got tt) }
{
    for (name, _) in reading.rows.tape.pairs(p) {
        if index
            .find(reading.rows.tape.words(name).as_bytes())
            .is_none()
        {
            return Err(Fault::UnknownColumn {
                node: reading.node,
                name,
            });
        }
    }
    Ok(())
}

// Writes the value behind the name at `p` into the place of its field, if a field is so called.
fn put_value<N: NameIndex>(
    index: &N,
    tape: Tape<'_>,
    p: u32,
    work: &mut [u32],
    place: usize,
    step: usize,
)
    requires position { is_position (view_of tape) p ≡ true }
    requires name { is_at (view_of tape) (the "s") p ≡ true }
    requires room { (k : ℕ) → k < length (N.NameIndex.names index.now) → place + k * step < length work.old }
    ensures { work.new ≡ with_value work.old place step (p + 1) (lowest (N.NameIndex.names index.now) (words_at (view_of tape.entry) p)) }
{
    if let Some(k) = index.find(tape.words(p).as_bytes()) {
        let at = place + k * step;
        let slot = &mut work[at];
        *slot = p + 1;
    }
}

// Writes the values of the object at `p` into the places of their fields: of the last pair with a field's name, and zero where there is none.
fn put_values<N: NameIndex>(
    index: &N,
    reading: Reading<'_>,
    fields: usize,
    p: u32,
    work: &mut [u32],
    place: usize,
    step: usize,
)
    requires fields { fields ≡ length (N.NameIndex.names index.now) }
    requires position { is_position (view_of reading.rows.tape) p ≡ true }
    requires object { is_at (view_of reading.rows.tape) (the "{") p ≡ true }
    requires accepted { is_got (placed reading.settings (view_of reading.rows.tape) (numbered reading.node) (N.NameIndex.names index.now) (entries (view_of reading.rows.tape) p) (replicate fields 0)) ≡ true }
    requires room { (k : ℕ) → k < fields → place + k * step < length work.old }
    requires apart { 0 < step }
    ensures item { placed reading.entry.settings (view_of reading.entry.rows.tape) (numbered reading.entry.node) (N.NameIndex.names index.now) (entries (view_of reading.entry.rows.tape) p) (replicate fields 0) ≡ got (column work.new place step fields) }
    ensures spread { Spread place step (column work.new place step fields) work.old work.new }
{
    put_zeros(work, place, step, fields);
    for (name, _) in reading.rows.tape.pairs(p) {
        put_value(index, reading.rows.tape, name, work, place, step);
    }
}

// Whether the row at `p` gives each field its value.
fn check_item<N: NameIndex>(
    index: &N,
    fields: usize,
    reading: Reading<'_>,
    p: u32,
) -> Result<(), Fault>
    requires tied { Tied (N.NameIndex.names index.now) fields }
    requires position { is_position (view_of reading.rows.tape) p ≡ true }
    requires begun { is_at (view_of reading.rows.tape) (letter reading.settings fieldwise) p ≡ true }
    ensures { answer_of result ≡ then (item_in reading.entry (N.NameIndex.names index.now) p) (λ _. got tt) }
{
    if reading.settings.list_rows {
        return check_entries(reading, fields, p);
    }
    if reading.settings.strict {
        return check_names(index, reading, p);
    }
    Ok(())
}

// Writes the values of the row at `p` into the places of their fields.
fn put_item<N: NameIndex>(
    index: &N,
    fields: usize,
    reading: Reading<'_>,
    p: u32,
    work: &mut [u32],
    place: usize,
    step: usize,
)
    requires tied { Tied (N.NameIndex.names index.now) fields }
    requires position { is_position (view_of reading.rows.tape) p ≡ true }
    requires begun { is_at (view_of reading.rows.tape) (letter reading.settings fieldwise) p ≡ true }
    requires accepted { is_got (item_in reading (N.NameIndex.names index.now) p) ≡ true }
    requires room { (k : ℕ) → k < fields → place + k * step < length work.old }
    requires apart { 0 < step }
    ensures { (item : List ℕ) → item_in reading.entry (N.NameIndex.names index.now) p ≡ got item → Spread place step item work.old work.new }
{
    if reading.settings.list_rows {
        put_entries(reading.rows.tape, p, work, place, step);
    } else {
        put_values(index, reading, fields, p, work, place, step);
    }
}

// The rows of a struct give each field the value of the last pair with its name, or its entry under list rows; a null row gives every field position 0.
#[derive(Clone, Copy)]
pub struct StructRows<'a, N> {
    pub index: &'a N,
    pub fields: usize,
}

impl<N: NameIndex> RowKind for StructRows<'_, N> {
    ghost branch = { λ _. fieldwise };

    ghost children = { λ s. named (N.NameIndex.names s.index.now) };

    ghost ready = { λ s. Tied (N.NameIndex.names s.index.now) s.fields };

    fn branch(&self) -> Branch {
        Branch::Struct
    }

    fn kids(&self) -> usize {
        self.fields
    }

    fn bracket(&self, settings: Settings) -> char {
        if settings.list_rows { '[' } else { '{' }
    }

    fn count(&self, reading: Reading<'_>, p: u32) -> Result<usize, Fault> {
        check_item(self.index, self.fields, reading, p)?;
        Ok(1)
    }

    fn put(
        &self,
        reading: Reading<'_>,
        p: u32,
        work: &mut [u32],
        stride: usize,
        at: usize,
    ) -> usize {
        put_item(self.index, self.fields, reading, p, work, at, stride);
        1
    }

    fn hides(&self) -> usize {
        1
    }

    fn put_null(&self, work: &mut [u32], stride: usize, at: usize) {
        put_zeros(work, at, stride, self.fields);
    }
}
