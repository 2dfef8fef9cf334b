// The page check as a static library for C; include/page.h says the same in C.
#![tactic(auto)]

ghost use Rattle.std.specs.Prelude.{◌≡◌};
ghost use Rattle.page.specs.Checks.{check_refusal};
ghost use Rattle.page.specs.Faces.{finding_of};

use page::Finding;

// Tells C whether the bytes are a page.
#[unsafe(no_mangle)]
pub extern "C" fn page_check(bytes: &[u8], arities: &[u8]) -> Finding
    ensures { result ≡ finding_of (check_refusal bytes.now arities.now) }
{
    page::page_check(bytes, arities)
}
