// Laws of the leaf's meaning: each contract is a theorem.
ghost use Rattle.thousandths.specs.Means.{RightAnswers, WellLaid};
ghost use Rattle.thousandths.specs.Samples.{Samples};

// The answer to a text is the eight bytes of the number that it says, and a conflict exactly where it has no reading.
pub fn right_answers_stand()
    ensures { RightAnswers }
{}

// Every value fits the layout of eight bytes.
pub fn well_laid_stands()
    ensures { WellLaid }
{}

// The worked examples.
pub fn samples_stand()
    ensures { Samples }
{}
