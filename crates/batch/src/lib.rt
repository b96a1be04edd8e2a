// A batch: columns of row values as bytes.
#![tactic(auto)]

ghost use Rattle.batch.specs.Laws.{BatchesInFormat, BatchesFilled, BatchesReadBack, SameBytes, WholeWords, AllBytes, BatchesSpelled, TapesWorded};

pub mod cell;
pub mod record;

// The laws of every batch.
pub fn laws()
    ensures format { BatchesInFormat }
    ensures filled { BatchesFilled }
    ensures spelled { BatchesSpelled }
    ensures worded { TapesWorded }
    ensures back { BatchesReadBack }
    ensures same { SameBytes }
    ensures words { WholeWords }
    ensures bytes { AllBytes }
{}
