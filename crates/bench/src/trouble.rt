// What can stop a measurement.
ghost use Rattle.std.specs.Prelude.{◌≡◌};
ghost use Rattle.bench.specs.declared.trouble.Trouble.{Trouble};

use book::Refusal;
use std::io;

#[derive(Debug, Drop)]
pub(crate) enum Trouble {
    Outside(io::Error),
    // A row or a rule was refused, so the figures would say nothing.
    Refused(Refusal),
    // Nodes make no plan, so nothing can be asked.
    NoPlan,
}

impl From<io::Error> for Trouble {
    ghost from_gives = { λ error r. r ≡ Trouble.Outside error };

    fn from(error: io::Error) -> Trouble {
        Trouble::Outside(error)
    }
}

impl From<Refusal> for Trouble {
    ghost from_gives = { λ refusal r. r ≡ Trouble.Refused refusal };

    fn from(refusal: Refusal) -> Trouble {
        Trouble::Refused(refusal)
    }
}
