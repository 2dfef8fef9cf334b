// What is proved of rules, conflicts and readings, whatever a program does: each contract names its theorems.
ghost use Rattle.rules.specs.Laws.{HeldRows, PutRows, StruckRows, PutEmpties, StruckEmpties, SomeEmpty};
ghost use Rattle.rules.specs.Laws.{OnePlaceLess, Strikes, OneRuleMore, OneRuleLess, ByChoice, ChoiceApart, OneOrder};
ghost use Rattle.rules.specs.Laws.{PutStarts, RuleStarts, RoundStarts, Enters, Round, RoundEnds, PutUndone, RuleUndone};
ghost use Rattle.rules.specs.Laws.{AreConflicts, Counted, TooMany, OneTooMany};
ghost use Rattle.rules.specs.Laws.{Extends, SomeReading, SameReadings, SameMembers, OnlyHeld};

// Which rows are held, and how many places are empty, when a row is put or struck.
pub fn holding()
    ensures rows { HeldRows }
    ensures put { PutRows }
    ensures struck { StruckRows }
    ensures uses { PutEmpties }
    ensures frees { StruckEmpties }
    ensures empty { SomeEmpty }
{}

// How the conflicts change with the row at one place, and with the last rule.
pub fn changing()
    ensures place { OnePlaceLess }
    ensures strikes { Strikes }
    ensures more { OneRuleMore }
    ensures less { OneRuleLess }
{}

// Conflicts are found by going through the choices of places that break a rule.
pub fn choosing()
    ensures choice { ByChoice }
    ensures apart { ChoiceApart }
    ensures order { OneOrder }
{}

// A list of conflicts that is completed rule by rule, or given up half-way.
pub fn completing()
    ensures put { PutStarts }
    ensures rule { RuleStarts }
    ensures starts { RoundStarts }
    ensures enters { Enters }
    ensures round { Round }
    ensures ends { RoundEnds }
    ensures unput { PutUndone }
    ensures unrule { RuleUndone }
{}

// The listed conflicts are as many as the conflicts of the rows held.
pub fn counting()
    ensures are { AreConflicts }
    ensures counted { Counted }
    ensures many { TooMany }
    ensures full { OneTooMany }
{}

// There are readings, and they are those of the rows held and of the listed conflicts.
pub fn reading()
    ensures extends { Extends }
    ensures some { SomeReading }
    ensures listed { SameReadings }
    ensures members { SameMembers }
    ensures held { OnlyHeld }
{}
