// The laws of a shelf: what holds of every list of calls.
#![tactic(auto)]

ghost use Rattle.laws.specs.Laws.{CustomAsked};
ghost use Rattle.laws.specs.History.{AlwaysKept, AlwaysInFormat};

// The laws of every run.
pub fn always_kept()
    ensures { AlwaysKept }
{}

// Every batch that is held is in the Format.
pub fn always_in_format()
    ensures { AlwaysInFormat }
{}

// The custom leaf's own answers are what its columns hold.
pub fn custom_asked()
    ensures { CustomAsked }
{}
