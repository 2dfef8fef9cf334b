// Rules: atoms, then comparisons, each any number of times.
ghost use Rattle.std.specs.Prelude.{◌≡◌, ◌≤◌};
ghost use Rattle.std.specs.Option.{option_map};
ghost use Rattle.words.specs.Language.{texts};
ghost use Rattle.words.specs.Meaning.{to_come};
ghost use Rattle.commands.specs.Rooms.{room};
ghost use Rattle.commands.specs.Rules.{written, atom_behind, rule_from};

use super::columns::relation_of;
use super::comparison::comparison_of;
use crate::rule::RuleText;
use words::{Parts, number};

// A rule from its words, for which a line has room.
pub fn rule_from(words: Parts<'_>) -> Option<RuleText>
    requires { room (texts (to_come words)) ≤ 200 }
    ensures { option_map written result ≡ rule_from (texts (to_come words.entry)) }
{
    let mut rule = RuleText::new();
    for part in words {
        match atom_in(&rule, part.text) {
            Some(value) => rule.add_atom(relation_of(value)?),
            None => rule.add_comparison(comparison_of(part.text)?),
        }
    }
    Some(rule)
}

// The number that a word is, if atoms may still come: behind a comparison there is none.
fn atom_in(rule: &RuleText, text: &[u8]) -> Option<u32>
    ensures { result ≡ atom_behind (written rule.now).comparisons text.now }
{
    match rule.comparisons() {
        [] => number(text),
        _ => None,
    }
}
