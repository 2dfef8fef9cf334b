// The check as C is told it: the crate page_c hands it out, and include/page.h says the same in C.
ghost use Rattle.std.specs.Prelude.{◌≡◌};
ghost use Rattle.page.specs.Checks.{check_refusal};
ghost use Rattle.page.specs.Faces.{finding_of};

use crate::checking::check;
use fault::Notice;

// What the check found, in two numbers, since C has no `Result`: the number of the refusal, or 0 for a page, and the position.
#[repr(C)]
#[derive(Clone, Copy)]
pub struct Finding {
    pub number: u8,
    pub position: usize,
}

// Tells C whether the bytes are a page.
pub fn page_check(bytes: &[u8], arities: &[u8]) -> Finding
    ensures { result ≡ finding_of (check_refusal bytes.now arities.now) }
{
    match check(bytes, arities) {
        Ok(()) => Finding {
            number: 0,
            position: 0,
        },
        Err(refusal) => {
            let notice = Notice::from(refusal);
            Finding {
                number: notice.number,
                position: notice.position,
            }
        }
    }
}
