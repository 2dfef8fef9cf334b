// Any refusal that a line can meet, each layer's kept whole.
ghost use Rattle.std.specs.Prelude.{◌≡◌};
ghost use Rattle.script.specs.Faults.{fault_notice};
ghost use Rattle.script.specs.declared.faults.Fault.{Fault};

use fault::Notice;

#[derive(Clone, Copy)]
pub enum Fault {
    Script(commands::Refusal),
    Plan(plan::Refusal),
    Book(book::Refusal),
}

// The number, layer and position that the refusing layer tells.
impl From<Fault> for Notice {
    ghost from_gives = { λ fault notice. notice ≡ fault_notice fault };

    fn from(fault: Fault) -> Notice {
        match fault {
            Fault::Script(refusal) => Notice::from(refusal),
            Fault::Plan(refusal) => Notice::from(refusal),
            Fault::Book(refusal) => Notice::from(refusal),
        }
    }
}

impl From<commands::Refusal> for Fault {
    ghost from_gives = { λ refusal r. r ≡ Fault.Script refusal };

    fn from(refusal: commands::Refusal) -> Fault {
        Fault::Script(refusal)
    }
}

impl From<plan::Refusal> for Fault {
    ghost from_gives = { λ refusal r. r ≡ Fault.Plan refusal };

    fn from(refusal: plan::Refusal) -> Fault {
        Fault::Plan(refusal)
    }
}

impl From<book::Refusal> for Fault {
    ghost from_gives = { λ refusal r. r ≡ Fault.Book refusal };

    fn from(refusal: book::Refusal) -> Fault {
        Fault::Book(refusal)
    }
}
