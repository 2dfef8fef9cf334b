// The first words that are known.
ghost use Rattle.std.specs.Prelude.{◌≡◌};
ghost use Rattle.commands.specs.Verbs.{verb_of};

#[derive(Clone, Copy)]
pub enum Verb {
    Enter,
    Strike,
    Rule,
    Verdict,
    Sheet,
    Conflicts,
}

impl Verb {
    // The verb that a word is, if it is one. An `Option`, since the error of a `TryFrom` would say nothing more.
    #[tactic(auto, using(crate::proofs::Verbs::told))]
    pub fn of(word: &[u8]) -> Option<Verb>
        ensures { result ≡ verb_of word.now }
    {
        match word {
            b"enter" => Some(Verb::Enter),
            b"strike" => Some(Verb::Strike),
            b"rule" => Some(Verb::Rule),
            b"verdict" => Some(Verb::Verdict),
            b"sheet" => Some(Verb::Sheet),
            b"conflicts" => Some(Verb::Conflicts),
            _ => None,
        }
    }
}
