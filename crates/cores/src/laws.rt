// What is proved of sure lines, of cores and of the search for them: each contract names its theorems.
ghost use Rattle.cores.specs.Laws.{NeverBoth};
ghost use Rattle.cores.specs.Laws.{InAndOut, FirstTruths, BitAt, EveryWay};
ghost use Rattle.cores.specs.Laws.{SureByPlaces, CoreByPlaces, SureByRules, CoreByRules};
ghost use Rattle.cores.specs.Laws.{PushMarks, PushReal, FewMarked, Different, HeldMarked};
ghost use Rattle.cores.specs.Laws.{Blocked, NoneFits, ShutOut, EachTried, FreeIsBest};

// A sure line has no core.
pub fn words()
    ensures { NeverBoth }
{}

// Which ways there are to go through, and what counts of them.
pub fn ways()
    ensures apart { InAndOut }
    ensures first { FirstTruths }
    ensures bit { BitAt }
    ensures every { EveryWay }
{}

// How many places are marked, and that all are held.
pub fn marking()
    ensures push { PushMarks }
    ensures real { PushReal }
    ensures few { FewMarked }
    ensures different { Different }
    ensures held { HeldMarked }
{}

// Where a search for choices may turn back, and where it need not.
pub fn searching()
    ensures blocked { Blocked }
    ensures none { NoneFits }
    ensures shut { ShutOut }
    ensures each { EachTried }
    ensures free { FreeIsBest }
{}

// What is found over places is what a verdict says of rows.
pub fn settling()
    ensures sure { SureByPlaces }
    ensures core { CoreByPlaces }
    ensures sure_by_rules { SureByRules }
    ensures core_by_rules { CoreByRules }
{}
