// What a book keeps beside its source: the rules, and the conflicts that they make of the rows.
use ordered::Few;
use rules::{Conflicts, Rule};

pub mod upkeep;

#[derive(Drop)]
pub struct Log {
    pub rules: Few<Rule, 16>,
    pub conflicts: Conflicts,
}
