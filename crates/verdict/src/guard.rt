// The mark bytes while a search has them.
ghost use Rattle.std.specs.Prelude.{◌≡◌, length, replicate};

use crate::marks::wipe;

// Whatever way the search ends, the bytes are zero when this falls.
pub struct Marks<'a> {
    pub bytes: &'a mut [u8],
}

impl Drop for Marks<'_> {
    fn drop(self)
        ensures { self.exit.0.now ≡ replicate (length self.entry.bytes.now) 0 }
    {
        wipe(self.bytes);
        let Marks { bytes: _ } = self;
    }
}
