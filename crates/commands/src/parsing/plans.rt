// Plans in postfix, alone and before a slash.
ghost use Rattle.std.specs.Prelude.{◌≡◌, ◌≤◌, OnSome};
ghost use Rattle.std.specs.Option.{option_map};
ghost use Rattle.ordered.specs.Lists.{items_in};
ghost use Rattle.words.specs.Language.{texts, is_slash};
ghost use Rattle.words.specs.Meaning.{to_come};
ghost use Rattle.commands.specs.Plans.{plan_from, before_slash, behind_slash, verdict_from};
ghost use Rattle.commands.specs.Postfixes.{asked};
ghost use Rattle.commands.specs.Rooms.{room};

use super::columns::columns_from;
use crate::postfix::Postfix;
use crate::verdicts::VerdictText;
use ordered::Few;
use plan::Node;
use words::Parts;

// The nodes of a plan from its words, for which a line has room.
pub fn plan_from(words: Parts<'_>) -> Option<Few<Node, 100>>
    requires { room (texts (to_come words)) ≤ 200 }
    ensures { option_map items_in result ≡ plan_from (texts (to_come words.entry)) }
{
    let mut plan = Postfix::new();
    for part in words {
        plan.add(part)?;
    }
    plan.whole()
}

// Whether a text is the slash.
fn is_slash(text: &[u8]) -> bool
    ensures { result ≡ is_slash text.now }
{
    matches!(text, b"/")
}

// The nodes of the plan before the slash, or before the end where there is none; the words behind it are to come.
fn plan_before(words: &mut Parts<'_>) -> Option<Few<Node, 100>>
    requires { room (texts (to_come words.old)) ≤ 200 }
    ensures nodes { option_map items_in result ≡ plan_from (before_slash (texts (to_come words.old))) }
    ensures rest { OnSome result (texts (to_come words.new) ≡ behind_slash (texts (to_come words.old))) }
{
    let mut plan = Postfix::new();
    // Tried with `for part in words`: of what is to come behind a `break` nothing is known there.
    while let Some(part) = words.next() {
        if is_slash(part.text) {
            break;
        }
        plan.add(part)?;
    }
    plan.whole()
}

// A plan, a slash and one to eight columns.
pub fn verdict_from(mut words: Parts<'_>) -> Option<VerdictText>
    requires { room (texts (to_come words)) ≤ 200 }
    ensures { option_map asked result ≡ verdict_from (texts (to_come words.entry)) }
{
    // Where there is no slash, no column is left.
    Some(VerdictText {
        nodes: plan_before(&mut words)?,
        columns: columns_from(words)?,
    })
}
