// A schema: the tree of a batch's columns, held in records of sixteen bytes over the bytes of its names.
#![tactic(auto)]

ghost use Rattle.std.specs.Prelude.{◌≡◌, ◌+◌, ◌^◌, ◌<◌, ◌≤◌, length, IsUtf8, ◌==◌};
ghost use Rattle.std.specs.List.{All};
ghost use Rattle.schema.specs.Layout.{record_count, letter_at, flag_at, wide_at, end_at, start_at, size_at, name_at, count_at};
ghost use Rattle.schema.specs.Held.{letter_of, wide_of, count_of};
ghost use Rattle.schema.specs.Tree.{Node, field_of, kind_of, children_of, nodes, numbers};
ghost use Rattle.schema.specs.Opens.{Opens, OneTree, AllFormed, AllHeld};
ghost use Rattle.schema.specs.Unique.{opened_prop};

mod check;
pub mod children;
pub mod kind;
pub mod records;
pub mod settings;

use children::Children;
use kind::{Branch, Kind, LeafKind};
use records::Records;
use slip::Fault;

// A schema that was found to be a tree.
#[derive(Clone, Copy)]
pub struct Schema<'a> {
    records: Records<'a>,
    pub ghost opened: { (root : Node) × Opens records.bytes.now records.names.now root } by { opened_prop records.bytes.now records.names.now },
}

impl<'a> Schema<'a> {
    ghost use Rattle.schema.specs.Opened.{Opening, TreeOf, NodeOf, records_of, names_of, size_of};
    ghost use Rattle.schema.specs.Children.{rest};

    // The schema in two slices, where its records hold a tree.
    pub fn open(records: &'a [u8], names: &'a [u8]) -> Result<Schema<'a>, Fault>
        ensures tree { Opening records.now names.now result }
        ensures one { OneTree records.now names.now }
        ensures formed { AllFormed records.now names.now }
        ensures held { AllHeld records.now names.now }
    {
        let records = Records {
            bytes: records,
            names,
        };
        if records.is_tree() {
            Ok(Schema { records })
        } else {
            Err(Fault::BadSchema)
        }
    }

    // The bytes of the records, and of the names.
    pub fn bytes(self) -> (&'a [u8], &'a [u8])
        ensures records { result.0.now ≡ records_of self.entry }
        ensures names { result.1.now ≡ names_of self.entry }
    {
        (self.records.bytes, self.records.names)
    }

    // How many nodes there are.
    pub fn len(self) -> usize
        ensures said { result ≡ size_of self.entry }
        ensures tree { (root : Node) → TreeOf self.entry root → result ≡ length (nodes root) }
    {
        self.records.len()
    }

    // The letter of node `i`.
    pub fn letter(self, i: usize) -> char
        requires { i < size_of self }
        ensures said { result ≡ letter_at (records_of self.entry) i }
        ensures node { (t : Node) → NodeOf self.entry i t → result ≡ letter_of t }
    {
        self.records.letter(i)
    }

    // What node `i` is.
    pub fn kind(self, i: usize) -> Kind
        requires { i < size_of self }
        ensures { (t : Node) → NodeOf self.entry i t → result ≡ kind_of t }
    {
        let wide = self.wide(i);
        match self.letter(i) {
            'S' => Kind::Branch(Branch::Struct),
            'L' => Kind::Branch(Branch::List { view: false, wide }),
            'V' => Kind::Branch(Branch::List { view: true, wide }),
            'F' => Kind::Branch(Branch::Fixed {
                count: self.count(i),
            }),
            'M' => Kind::Branch(Branch::Map),
            'T' => Kind::Leaf(LeafKind::Text { wide }),
            'B' => Kind::Leaf(LeafKind::Boolean),
            'N' => Kind::Leaf(LeafKind::Null),
            _ => Kind::Leaf(LeafKind::Custom),
        }
    }

    // Whether node `i` has the nullable flag.
    pub fn nullable(self, i: usize) -> bool
        requires { i < size_of self }
        ensures said { result ≡ (flag_at (records_of self.entry) i == 1) }
        ensures node { (t : Node) → NodeOf self.entry i t → result ≡ (field_of t).nullable }
    {
        self.records.flag(i) == 1
    }

    // Whether the offsets of node `i` have eight bytes, and not four.
    pub fn wide(self, i: usize) -> bool
        requires { i < size_of self }
        ensures said { result ≡ (wide_at (records_of self.entry) i == 1) }
        ensures node { (t : Node) → NodeOf self.entry i t → result ≡ wide_of t }
    {
        self.records.wide(i) == 1
    }

    // The number after the last node below node `i`.
    pub fn end(self, i: usize) -> usize
        requires { i < size_of self }
        ensures said { result ≡ end_at (records_of self.entry) i }
        ensures node { (t : Node) → NodeOf self.entry i t → result ≡ i + length (nodes t) }
    {
        self.records.end(i)
    }

    // The fields of a struct, or the items in a row of a fixed-size list.
    pub fn count(self, i: usize) -> usize
        requires { i < size_of self }
        ensures small { result < 2 ^ 16 }
        ensures said { result ≡ count_at (records_of self.entry) i }
        ensures node { (t : Node) → NodeOf self.entry i t → result ≡ count_of t }
    {
        self.records.count(i)
    }

    // The numbers of the nodes right below node `i`, in order.
    pub fn children(self, i: usize) -> Children<'a>
        requires { i < size_of self }
        ensures node { (t : Node) → NodeOf self.entry i t → rest result ≡ numbers (children_of t) }
        ensures within { All (λ c. c < size_of self.entry) (rest result) }
        ensures few { length (rest result) < size_of self.entry }
    {
        Children::over(self, i + 1, self.kind(i).children(self.count(i)))
    }

    // The name of node `i`.
    pub fn name(self, i: usize) -> &'a [u8]
        requires { i < size_of self }
        ensures said { result.now ≡ name_at (records_of self.entry) (names_of self.entry) i }
        ensures node { (t : Node) → NodeOf self.entry i t → result.now ≡ (field_of t).name }
        ensures utf8 { IsUtf8 result.now }
    {
        self.records.name(i)
    }
}
