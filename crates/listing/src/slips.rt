// What a refusal says.
ghost use Rattle.std.specs.Prelude.{◌≡◌, Some};
ghost use Rattle.listing.specs.Refusals.{meaning_of, counted_by, slip_text};

use slip::Fault;
use std::fmt;

// What the refusal means, in a line.
fn meaning(fault: Fault) -> &'static str
    ensures { result.now ≡ meaning_of fault }
{
    match fault {
        Fault::TornTape => "these bytes break a rule of tapes; nothing was read from them",
        Fault::BadSchema => "these records hold no tree of columns, or break a limit",
        Fault::BadPosition { .. } => "an entry of the list is no position of this tape",
        Fault::Full { .. } => "too little space; nothing is wrong with the frame",
        Fault::WrongKind { .. } => "the node wants another kind of element",
        Fault::UnknownColumn { .. } => "no field of the struct has this name",
        Fault::ExtraColumn { .. } => "more entries than the struct has fields",
        Fault::FewColumns { .. } => "fewer entries than the struct has fields",
        Fault::WrongCount { .. } => "not as many entries as the fixed-size list wants",
        Fault::BareNull { .. } => "null in a row that is there, where null may not be",
        Fault::Misfit { .. } => "the custom leaf gave a value that its column cannot hold",
        Fault::NotThere => "no such batch, node, slot or fault",
    }
}

// What the refusal's place counts, as it stands behind the place.
fn place_counts(fault: Fault) -> &'static str
    ensures { result.now ≡ counted_by fault }
{
    match fault {
        Fault::BadPosition { .. } => "  (entry of the list of positions)",
        Fault::WrongKind { .. } | Fault::Misfit { .. } => "  (element of the tape)",
        Fault::UnknownColumn { .. } => "  (element of the tape: the name)",
        Fault::ExtraColumn { .. } => "  (element of the tape: the first entry too many)",
        Fault::FewColumns { .. } | Fault::WrongCount { .. } => "  (element of the tape: the row)",
        Fault::BareNull { .. } => "  (slot of the node)",
        Fault::TornTape | Fault::BadSchema | Fault::Full { .. } | Fault::NotThere => "",
    }
}

// A refusal's slip, a line for each part.
#[derive(Clone, Copy)]
pub struct Slip(pub Fault);

impl fmt::Display for Slip {
    ghost output = { λ slip. Some (slip_text slip.0) };

    fn fmt<W: fmt::Write>(&self, f: &mut fmt::Formatter<W>) -> fmt::Result {
        let Slip(fault) = *self;
        let number = fault.number();
        let word = fault.word();
        let node = fault.node();
        let place = fault.place();
        let counts = place_counts(fault);
        let meaning = meaning(fault);
        writeln!(
            f,
            "  REFUSED
    number   {number}
    word     {word}
    node     {node}
    place    {place}{counts}
    meaning  {meaning}"
        )
    }
}
