// What a verdict and a sheet of a case cost, over any source.
use crate::case::Case;
use crate::least::{Timed, least};
use crate::trouble::Trouble;
use book::Book;
use plan::Line;
use std::io;
use store::{Row, Source};
use verdict::{MARK_BYTES, Verdict};

#[derive(Clone, Copy)]
pub(crate) struct Judged {
    conflicts: usize,
    verdict: Timed<Verdict>,
    sheet: Timed<usize>,
}

impl Judged {
    // The source comes empty, with the relations of the rink.
    pub(crate) fn of<S: Source + Drop>(
        rt: &HostRuntime,
        source: S,
        case: Case,
    ) -> Result<Judged, Trouble> {
        let mut book = Book::open(source);
        case.scene().fill(&mut book)?;
        let plan = case.plan()?;
        let line = case.line();
        let mut marks = [0; MARK_BYTES];
        let mut core = [Row::BLANK; 12];
        let mut lines = [Line { columns: [0; 8] }; 256];
        Ok(Judged {
            conflicts: book.conflicts(),
            verdict: least(rt, || book.verdict(&plan, &line, &mut marks, &mut core))?,
            sheet: least(rt, || book.sheet(&plan, &mut marks, &mut lines))?,
        })
    }

    pub(crate) fn print(self, rt: &HostRuntime) -> io::Result<()> {
        let conflicts = self.conflicts;
        let verdict = self.verdict.microseconds;
        let said = match self.verdict.told {
            Verdict::Sure => "sure",
            Verdict::Unsure(_) => "unsure",
        };
        let sheet = self.sheet.microseconds;
        let lines = self.sheet.told;
        println!(rt;
            "{conflicts} conflicts, verdict {verdict:.1} ({said}), sheet {sheet:.1} (sure lines: {lines})"
        )
    }
}
