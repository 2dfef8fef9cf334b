// The layers of the engine that can refuse a call.
ghost use Rattle.std.specs.Prelude.{◌≡◌, Some};
ghost use Rattle.fault.specs.Notices.{layer_of};
ghost use Rattle.fault.specs.Printing.{layer_word};

use std::fmt;

#[derive(Clone, Copy)]
pub enum Layer {
    Script,
    Source,
    Plan,
    Page,
    Book,
}

// The layer that a refusal's number belongs to. A function: `From<u8>` would be the same lines, with no name for what is asked.
pub fn layer_of(number: u8) -> Layer
    ensures { result ≡ layer_of number }
{
    match number {
        1..=4 => Layer::Script,
        11..=14 | 16 => Layer::Source,
        31..=34 => Layer::Plan,
        51..=55 => Layer::Page,
        _ => Layer::Book,
    }
}

// A layer is printed as its word.
impl fmt::Display for Layer {
    ghost output = { λ layer. Some (layer_word layer) };

    fn fmt<W: fmt::Write>(&self, f: &mut fmt::Formatter<W>) -> fmt::Result {
        f.write_str(match self {
            Layer::Script => "script",
            Layer::Source => "source",
            Layer::Plan => "plan",
            Layer::Page => "page",
            Layer::Book => "book",
        })
    }
}
