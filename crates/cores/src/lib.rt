// Cores: what shows that a line is not in every reading.
//
// A line is sure when every reading has it as an answer (specs/Sure.antt). To find out, one goes through the ways to say of
// each row that the line names whether it is in or out. A way that loses the line can be just where each row that is out has
// a conflict whose other rows can all be in, together with the rows that are in. These rows are then a core. They are at most
// twelve, for a plan has at most six leaves, and each asks for its own row, or for two others of a conflict.
// Nothing here runs: it is proved that what such a search finds over places is what a verdict says of rows, and what may cut
// the search short (specs/Laws.antt).
#![tactic(auto)]

pub mod laws;
