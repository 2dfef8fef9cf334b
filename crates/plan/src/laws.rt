// What is proved of all plans, each theorem as the promise of a function that does nothing.
ghost use Rattle.plan.specs.Laws.{ByNames, FirstFault};

// Whether a line is an answer over rows depends on the rows that it names, and on nothing else.
pub fn by_names()
    ensures { ByNames }
{}

// The position that the last question of `fill` tells is right by either reading of it.
pub fn first_fault()
    ensures { FirstFault }
{}
