// What the counter does with a line, and what it says of it.
ghost use Rattle.std.specs.Prelude.{◌≡◌, ℕ, [], replicate, None};
ghost use Rattle.book.specs.Runs.{opened, opening, Life};
ghost use Rattle.script.specs.Counters.{rink_arity, store_of, rules_in, Follows, Does, TellSays};
ghost use Rattle.commands.specs.PlanWords.{nodes_in_words, verdict_in_words};
ghost use Rattle.commands.specs.Tasks.{task_of, verdict, sheet};

use super::Counter;
use crate::faults::Fault;
use crate::reply::{Reply, Said};
use book::Book;
use commands::{Command, PlanWords, parse};
use plan::Line;
use store::{Row, Table};
use verdict::MARK_BYTES;

impl Counter {
    // A counter with the rink's relations, no rows and no rules, that was told no line yet.
    pub fn new() -> Counter
        ensures rows { (store_of result).places ≡ replicate 64 None }
        ensures arities { (relation : ℕ) → (store_of result).arity relation ≡ rink_arity relation }
        ensures rules { rules_in result ≡ [] }
        ensures lines { result.lines ≡ 0 }
        ensures law { Life (opening (opened (store_of result))) (store_of result) (rules_in result) }
    {
        Counter {
            book: Book::open(Table::new(&rink::ARITIES)),
            marks: [0; MARK_BYTES],
            core: [Row::BLANK; 12],
            sheet: [Line { columns: [0; 8] }; 256],
            lines: 0,
        }
    }

    // Does what one line commands, and says how that went. Not inlined: each byte goes through `Session::hear`, which would else make
    // room for all that a line may want.
    #[inline(never)]
    pub fn tell(&mut self, line: &[u8]) -> Said
        ensures { TellSays self.old self.new line.now result }
    {
        let outcome = self.carry_out(line);
        self.lines = self.lines.saturating_add(1);
        Said {
            outcome,
            line: self.lines,
        }
    }

    // Room for the lines of a sheet: those of the sheet that was told last are at the front.
    pub fn sheet(&self) -> &[Line]
        ensures { result.now ≡ self.now.sheet }
    {
        &self.sheet
    }

    // What comes of a line: a refusal of the script or of a plan, or what the book answers.
    fn carry_out(&mut self, line: &[u8]) -> Result<Reply, Fault>
        ensures same { self.new.lines ≡ self.old.lines }
        ensures says { Does self.old self.new line.now result }
    {
        let command = parse(line)?;
        self.follow(&command)
    }

    // What comes of a command.
    fn follow(&mut self, command: &Command) -> Result<Reply, Fault>
        ensures same { self.new.lines ≡ self.old.lines }
        ensures says { Follows self.old self.new (task_of command.now) result }
    {
        match command {
            Command::Enter(row) => self.enter(row),
            Command::Strike(row) => self.strike(row),
            Command::Rule(text) => self.rule(text),
            Command::Verdict(words) => self.judge_words(words),
            Command::Sheet(words) => self.list_words(words),
            Command::Conflicts => Ok(Reply::Conflicts(self.book.conflicts())),
        }
    }

    // A verdict, and then a sheet, of the words of a plan, which are read here.
    fn judge_words(&mut self, words: &PlanWords) -> Result<Reply, Fault>
        ensures same { self.new.lines ≡ self.old.lines }
        ensures says { Follows self.old self.new (verdict (verdict_in_words words.now)) result }
    {
        let text = words.verdict();
        self.judge(text.nodes.as_slice(), text.columns)
    }

    fn list_words(&mut self, words: &PlanWords) -> Result<Reply, Fault>
        ensures same { self.new.lines ≡ self.old.lines }
        ensures says { Follows self.old self.new (sheet (nodes_in_words words.now)) result }
    {
        self.list(words.nodes().as_slice())
    }
}
