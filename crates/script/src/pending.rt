// The line that is being read, as its bytes arrive.
ghost use Rattle.std.specs.Prelude.{◌≡◌, [], ◌∷◌, ◌++◌, take};

use ordered::Few;

// The first 201 bytes of a line: one more than a line may have, so that a longer line is refused
// however long it is.
#[derive(Drop)]
pub struct Pending {
    bytes: Few<u8, 201>,
}

impl Pending {
    ghost use Rattle.script.specs.Gathering.{gathered};

    // No byte was read yet.
    pub fn new() -> Pending
        ensures { gathered result ≡ [] }
    {
        Pending { bytes: Few::new(0) }
    }

    // One more byte of the line; past the 201st they are let go.
    pub fn push(&mut self, byte: u8)
        ensures { gathered self.new ≡ take 201 (gathered self.old ++ (byte ∷ [])) }
    {
        if self.bytes.len() < 201 {
            self.bytes.push(byte);
        }
    }

    // What was gathered.
    pub fn text(&self) -> &[u8]
        ensures { result.now ≡ gathered self.now }
    {
        self.bytes.as_slice()
    }

    // Begins the next line.
    pub fn clear(&mut self)
        ensures { gathered self.new ≡ [] }
    {
        self.bytes.clear();
    }
}
