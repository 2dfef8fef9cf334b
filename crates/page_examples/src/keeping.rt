// A book that is kept over a page: its rows come back in the caller's bytes.
ghost use Rattle.std.specs.Prelude.{◌≡◌, length, map, None, Ok};
ghost use Rattle.book.specs.Calls.{StayZero};
ghost use Rattle.book.specs.Outcomes.{asked_by};
ghost use Rattle.page.specs.Checks.{check_refusal};
ghost use Rattle.page.specs.Pages.{page_of};
ghost use Rattle.page.specs.Sources.{page_model};
ghost use Rattle.page_examples.specs.Keeping.{KeepSays};

use book::{Call, Recorder, session};
use page::{Page, check};
use plan::Line;
use store::{Row, Source};

// Opens a book over the page that the bytes are, does the calls in their order, and lets the book go. The bytes are then
// the page of the rows that it held in the end; bytes that are no page stay as they were, and no call is done.
pub(crate) fn keep<R: Recorder>(
    arities: &[u8],
    bytes: &mut [u8],
    calls: &[Call<'_>],
    marks: &mut [u8],
    core: &mut [Row],
    lines: &mut [Line],
    recorder: &mut R,
) -> Result<(), page::Refusal>
    ensures marks { StayZero marks.old marks.new }
    ensures says { KeepSays R.Recorder.told recorder.old recorder.new (map (asked_by (length marks.old) (length core.old) (length lines.old)) calls.now) arities.now bytes.old bytes.new result }
{
    check(bytes, arities)?;
    let _page = run_over(arities, bytes, calls, marks, core, lines, recorder);
    Ok(())
}

// The page that the book leaves when it goes; it still lies on all of the bytes. This is a call of its own, since inside a book
// the prover loses where a source lies.
fn run_over<'a, R: Recorder>(
    arities: &[u8],
    bytes: &'a mut [u8],
    calls: &[Call<'_>],
    marks: &mut [u8],
    core: &mut [Row],
    lines: &mut [Line],
    recorder: &mut R,
) -> Page<'a>
    ensures lent { check_refusal bytes.old arities.now ≡ None → ⟦<Page<'a> as Source>⟧.anchor result ≡ bytes.entry.ghost_name }
    ensures marks { StayZero marks.old marks.new }
    ensures says { check_refusal bytes.old arities.now ≡ None → KeepSays R.Recorder.told recorder.old recorder.new (map (asked_by (length marks.old) (length core.old) (length lines.old)) calls.now) arities.now bytes.old (page_of (page_model result).places) (Ok tt) }
{
    let page = Page::open(arities, bytes);
    session(page, calls, marks, core, lines, recorder).source
}
