// Where the rows lie that are measured, and the measurements there.
use crate::case::Case;
use crate::costs::Costs;
use crate::judged::Judged;
use crate::load::Load;
use crate::round::round;
use crate::trouble::Trouble;
use page::{Page, write_page};
use rink::ARITIES;
use store::Table;

#[derive(Clone, Copy)]
pub(crate) enum Ground {
    // a table of 64 places
    Table,
    // a page of 256 places
    Page,
}

impl Ground {
    fn name(self) -> &'static str {
        match self {
            Ground::Table => "table of 64 places",
            Ground::Page => "page of 256 places",
        }
    }

    // The numbers of rows at which it is measured: the smallest, and each twice the one before.
    fn sizes(self) -> (u32, [u32; 2]) {
        match self {
            Ground::Table => (16, [32, 64]),
            Ground::Page => (64, [128, 256]),
        }
    }

    // How many rounds there are, of which the least time is told: a round takes longer with more rows.
    fn rounds(self) -> u32 {
        match self {
            Ground::Table => 200,
            Ground::Page => 10,
        }
    }

    // Measures a load, a line for each number of rows.
    pub(crate) fn measure(self, rt: &HostRuntime, load: Load) -> Result<(), Trouble> {
        let ground = self.name();
        let name = load.name();
        println!(rt; "{ground}, {name}")?;
        let (first, others) = self.sizes();
        let mut before = self.least(rt, load, first)?;
        before.print(rt, first, before)?;
        for rows in others {
            let costs = self.least(rt, load, rows)?;
            costs.print(rt, rows, before)?;
            before = costs;
        }
        Ok(())
    }

    // The least costs of many rounds.
    fn least(self, rt: &HostRuntime, load: Load, rows: u32) -> Result<Costs, Trouble> {
        let mut least = self.round(rt, load, rows)?;
        for _ in 0..self.rounds() {
            least = least.least(self.round(rt, load, rows)?);
        }
        Ok(least)
    }

    // One round over a source that is empty.
    fn round(self, rt: &HostRuntime, load: Load, rows: u32) -> Result<Costs, Trouble> {
        match self {
            Ground::Table => round(rt, Table::new(&ARITIES), load, rows),
            Ground::Page => {
                let mut bytes = [0; 5120];
                let _ = write_page(&[None; 256], &mut bytes);
                round(rt, Page::open(&ARITIES, &mut bytes), load, rows)
            }
        }
    }
    // Measures a verdict and a sheet of a case, and prints a line for it.
    pub(crate) fn judge(self, rt: &HostRuntime, case: Case) -> Result<(), Trouble> {
        let ground = self.name();
        let name = case.name();
        print!(rt; "{ground}, {name}: ")?;
        self.judged(rt, case)?.print(rt)?;
        Ok(())
    }

    // The same over a source that is empty.
    fn judged(self, rt: &HostRuntime, case: Case) -> Result<Judged, Trouble> {
        match self {
            Ground::Table => Judged::of(rt, Table::new(&ARITIES), case),
            Ground::Page => {
                let mut bytes = [0; 5120];
                let _ = write_page(&[None; 256], &mut bytes);
                Judged::of(rt, Page::open(&ARITIES, &mut bytes), case)
            }
        }
    }
}
