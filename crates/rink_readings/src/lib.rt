// Nine verdicts at the rink, shown of the words themselves.
//
// What is sure and what is a core is said in words of crate cores, over all readings of the rows that are held. For each of
// these examples it is shown that the words say there what they should (specs/Examples.antt). Nothing here runs.
#![tactic(auto)]

ghost use Rattle.rink_readings.specs.Examples.{RinkReadings};

pub fn rink_readings()
    ensures { RinkReadings }
{}
