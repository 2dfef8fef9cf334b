// From a line to what it commands.
ghost use Rattle.std.specs.Prelude.{◌≡◌, ◌≤◌, length, drop};
ghost use Rattle.std.specs.Option.{option_map};
ghost use Rattle.store.specs.Lists.{all};
ghost use Rattle.words.specs.Language.{texts};
ghost use Rattle.words.specs.Meaning.{to_come};
ghost use Rattle.commands.specs.Lines.{words_of, verb_in, has_form, task_from, ParseSays};
ghost use Rattle.commands.specs.PlanWords.{nodes_in_words, verdict_in_words};
ghost use Rattle.commands.specs.Plans.{plan_from, verdict_from};
ghost use Rattle.commands.specs.Tasks.{task_of};
ghost use Rattle.commands.specs.Rooms.{room};

use crate::command::Command;
use crate::plan_words::PlanWords;
use crate::refusal::Refusal;
use crate::verb::Verb;
pub use plans::{plan_from, verdict_from};
use row::row_from;
use rule::rule_from;
use words::{Parts, Separator, word};

mod columns;
pub(crate) mod comparison;
pub(crate) mod leaf;
mod plans;
mod row;
mod rule;

const MOST_BYTES: usize = 200;

// What a line commands, or the first question about it that is answered No.
pub fn parse(line: &[u8]) -> Result<Command, Refusal>
    ensures { ParseSays line.now result }
{
    if line.len() > MOST_BYTES {
        return Err(Refusal::TooLong);
    }
    let verb = verb_in(line).ok_or(Refusal::UnknownCommand)?;
    if !have_forms(further(line)) {
        return Err(Refusal::UnknownWord);
    }
    // By arms: `ok_or` would move the command, of 1.2 KiB, and the clearing of its room is much of what a short line costs.
    match command_of(verb, line) {
        Some(command) => Ok(command),
        None => Err(Refusal::Misplaced),
    }
}

// What the first word of a line commands, if it is known.
fn verb_in(line: &[u8]) -> Option<Verb>
    ensures { result ≡ verb_in (words_of line.now) }
{
    let first = Parts::new(line, Separator::Space).next()?;
    Verb::of(first.text)
}

// The words of a line behind its first.
pub(crate) fn further(line: &[u8]) -> Parts<'_>
    ensures words { texts (to_come result) ≡ drop 1 (words_of line.now) }
    ensures inside { room (texts (to_come result)) ≤ length line.now }
{
    let mut words = Parts::new(line, Separator::Space);
    let _ = words.next();
    words
}

// Whether each word has a form.
fn have_forms(mut words: Parts<'_>) -> bool
    ensures { result ≡ all has_form (texts (to_come words.entry)) }
{
    words.all(|part| word(part).is_some())
}

// The words of a verdict, if the words behind the first are one; the like for a sheet. What they read is room that only a function of
// its own is to pay for: each line goes through `command_of`.
fn verdict_words(line: &[u8]) -> Option<PlanWords>
    requires { length line.now ≤ 200 }
    ensures { option_map verdict_in_words result ≡ verdict_from (drop 1 (words_of line.now)) }
{
    let _ = verdict_from(further(line))?;
    Some(PlanWords::of(line))
}

fn sheet_words(line: &[u8]) -> Option<PlanWords>
    requires { length line.now ≤ 200 }
    ensures { option_map nodes_in_words result ≡ plan_from (drop 1 (words_of line.now)) }
{
    let _ = plan_from(further(line))?;
    Some(PlanWords::of(line))
}

// What the verb and the words behind it command.
fn command_of(verb: Verb, line: &[u8]) -> Option<Command>
    requires { length line.now ≤ 200 }
    ensures { option_map task_of result ≡ task_from verb (drop 1 (words_of line.now)) }
{
    let mut words = further(line);
    match verb {
        Verb::Enter => Some(Command::Enter(row_from(words)?)),
        Verb::Strike => Some(Command::Strike(row_from(words)?)),
        Verb::Rule => Some(Command::Rule(rule_from(words)?)),
        Verb::Verdict => Some(Command::Verdict(verdict_words(line)?)),
        Verb::Sheet => Some(Command::Sheet(sheet_words(line)?)),
        // It stands alone on its line.
        Verb::Conflicts => match words.next() {
            Some(_) => None,
            None => Some(Command::Conflicts),
        },
    }
}
