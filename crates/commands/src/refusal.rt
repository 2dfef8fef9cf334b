// Why a line is refused before anything is done.
ghost use Rattle.std.specs.Prelude.{◌≡◌};
ghost use Rattle.commands.specs.Refusals.{notice_of};

use fault::Notice;

#[derive(Clone, Copy)]
pub enum Refusal {
    // The line is longer than 200 bytes.
    TooLong,
    // Its first word is no command.
    UnknownCommand,
    // A further word has none of the forms of the language.
    UnknownWord,
    // The words are not in the order and number that the command wants.
    Misplaced,
}

// The number, layer and position that a person is told.
impl From<Refusal> for Notice {
    ghost from_gives = { λ refusal notice. notice ≡ notice_of refusal };

    fn from(refusal: Refusal) -> Notice {
        match refusal {
            Refusal::TooLong => Notice::new(1, 0),
            Refusal::UnknownCommand => Notice::new(2, 0),
            Refusal::UnknownWord => Notice::new(3, 0),
            Refusal::Misplaced => Notice::new(4, 0),
        }
    }
}
