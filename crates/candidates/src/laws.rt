// What is proved of all candidates, as the promise of a function that does nothing.
ghost use Rattle.candidates.specs.Laws.{AllCandidates};

// Every answer over some of the rows is a candidate over all of them.
pub fn all_candidates()
    ensures { AllCandidates }
{}
