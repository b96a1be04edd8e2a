// A law of the texts: its contract is a theorem.
ghost use Rattle.explain.specs.Laws.{NeverCut};

// The text of an element has the whole texts of its entries.
pub fn never_cut()
    ensures { NeverCut }
{}
