// Whole runs: one step for any call, and a session from the opening to the last call.
ghost use Rattle.std.specs.Prelude.{◌≡◌, length, drop, map};
ghost use Rattle.book.specs.Books.{rules_of};
ghost use Rattle.book.specs.Calls.{StepSays, StayZero, lines_used, marks_after, rows_used};
ghost use Rattle.book.specs.Outcomes.{asked_by, told_of, RunSays, SessionSays};
ghost use Rattle.book.specs.Runs.{LivesOn};

use crate::book::Book;
use crate::call::{Call, Done, Outcome};
use crate::recorder::Recorder;
use plan::Line;
use store::{Row, Source};

impl<S: Source> Book<S> {
    // Does one call, whichever it is, and tells what came of it. The mark bytes, the rows and the lines are lent to it.
    pub fn step(
        &mut self,
        call: Call<'_>,
        marks: &mut [u8],
        core: &mut [Row],
        lines: &mut [Line],
    ) -> Outcome
        ensures anchor { S.Source.anchor self.new.source ≡ S.Source.anchor self.old.source }
        ensures arity { (S.Source.model self.new.source).arity ≡ (S.Source.model self.old.source).arity }
        ensures says { StepSays (S.Source.model self.old.source) (rules_of self.old.log) (S.Source.model self.new.source) (rules_of self.new.log) core.old core.new lines.old lines.new (asked_by (length marks.old) (length core.old) (length lines.old) call.entry) result }
        ensures marks { marks.new ≡ marks_after (asked_by (length marks.old) (length core.old) (length lines.old) call.entry) marks.old }
        ensures core { drop (rows_used (asked_by (length marks.old) (length core.old) (length lines.old) call.entry)) core.new ≡ drop (rows_used (asked_by (length marks.old) (length core.old) (length lines.old) call.entry)) core.old }
        ensures lines { drop (lines_used (asked_by (length marks.old) (length core.old) (length lines.old) call.entry)) lines.new ≡ drop (lines_used (asked_by (length marks.old) (length core.old) (length lines.old) call.entry)) lines.old }
        ensures law { LivesOn (S.Source.model self.old.source) (rules_of self.old.log) (S.Source.model self.new.source) (rules_of self.new.log) (asked_by (length marks.old) (length core.old) (length lines.old) call.entry) (told_of core.new lines.new result) }
    {
        match call {
            Call::Enter(row) => self.entry(&row).map(|_| Done::Taken),
            Call::Strike(row) => self.strike(&row).map(|_| Done::Taken),
            Call::Rule { atoms, comparisons } => self.rule(atoms, comparisons).map(Done::Ruled),
            Call::Verdict {
                plan,
                line,
                marks: bytes,
                core: rows,
            } => {
                let bytes = bytes.min(marks.len());
                let rows = rows.min(core.len());
                self.verdict(plan, &line, &mut marks[..bytes], &mut core[..rows])
                    .map(Done::Judged)
            }
            Call::Sheet {
                plan,
                marks: size,
                lines: room,
            } => {
                let size = size.min(marks.len());
                let room = room.min(lines.len());
                self.sheet(plan, &mut marks[..size], &mut lines[..room])
                    .map(Done::Listed)
            }
        }
    }

    // Does calls in their order, each with the mark bytes, the rows and the lines that are lent, and has the outcome of each recorded.
    pub fn run<R: Recorder>(
        &mut self,
        calls: &[Call<'_>],
        marks: &mut [u8],
        core: &mut [Row],
        lines: &mut [Line],
        recorder: &mut R,
    )
        ensures anchor { S.Source.anchor self.new.source ≡ S.Source.anchor self.old.source }
        ensures arity { (S.Source.model self.new.source).arity ≡ (S.Source.model self.old.source).arity }
        ensures marks { StayZero marks.old marks.new }
        ensures law { RunSays (R.Recorder.told recorder.old) (R.Recorder.told recorder.new) (map (asked_by (length marks.old) (length core.old) (length lines.old)) calls.now) (S.Source.model self.old.source) (rules_of self.old.log) (S.Source.model self.new.source) (rules_of self.new.log) }
    {
        for call in calls {
            let outcome = self.step(*call, marks, core, lines);
            recorder.record(&outcome, core, lines);
        }
    }
}

// Opens a book over a source and does calls in their order: from beginning to end the plain book
// tells the same of each, and in the end both hold the same.
pub fn session<S: Source, R: Recorder>(
    source: S,
    calls: &[Call<'_>],
    marks: &mut [u8],
    core: &mut [Row],
    lines: &mut [Line],
    recorder: &mut R,
) -> Book<S>
    ensures anchor { S.Source.anchor result.source ≡ S.Source.anchor source }
    ensures arity { (S.Source.model result.source).arity ≡ (S.Source.model source).arity }
    ensures marks { StayZero marks.old marks.new }
    ensures law { SessionSays (R.Recorder.told recorder.old) (R.Recorder.told recorder.new) (map (asked_by (length marks.old) (length core.old) (length lines.old)) calls.now) (S.Source.model source) (S.Source.model result.source) (rules_of result.log) }
{
    let mut book = Book::open(source);
    book.run(calls, marks, core, lines, recorder);
    book
}
