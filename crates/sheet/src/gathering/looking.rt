// Going through the candidates.
use super::Gathering;
use candidates::next_candidate;
use ordered::{Full, enter};
use plan::Line;
use store::Source;
use verdict::is_sure;

impl<S: Source> Gathering<'_, S> {
    ghost use Rattle.std.specs.Prelude.{◌≤◌, length};
    ghost use Rattle.rules.specs.Entries.{listing};
    ghost use Rattle.plan.specs.Plans.{nodes_of};
    ghost use Rattle.sheet.specs.Sheets.{Readable};
    ghost use Rattle.sheet.specs.Gathering.{LookSays, GatherSays};

    // Looks at one candidate more, the next after those whose sure ones are the first `count` of the lines: it is entered if it is sure.
    fn look_at(
        &self,
        line: Line,
        marks: &mut [u8],
        lines: &mut [Line],
        count: usize,
    ) -> Result<usize, Full>
        requires room { 256 ≤ length marks.old }
        requires within { count ≤ length lines.old }
        ensures { LookSays (S.Source.model self.now.source.now) (listing self.now.conflicts.now) (nodes_of self.now.plan.now) lines.old lines.new line count result }
    {
        if is_sure(self.source, self.conflicts, self.plan, &line, marks) {
            return enter(lines, count, line);
        }
        Ok(count)
    }

    // All sure lines, in the front of the caller's, unless they do not fit; and how many they are.
    pub fn gather(&self, marks: &mut [u8], lines: &mut [Line]) -> Result<usize, Full>
        requires some { Readable (S.Source.model self.now.source.now) (listing self.now.conflicts.now) }
        requires room { 256 ≤ length marks.old }
        ensures { GatherSays (S.Source.model self.now.source.now) (listing self.now.conflicts.now) (nodes_of self.now.plan.now) lines.old lines.new result }
    {
        let mut count = 0;
        let mut last = None;
        while let Some(line) = next_candidate(self.source, self.plan, last) {
            count = self.look_at(line, marks, lines, count)?;
            last = Some(line);
        }
        Ok(count)
    }
}
