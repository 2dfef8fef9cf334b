// A page made from places.
ghost use Rattle.page.specs.Pages.{WriteSays};

use crate::encoding::write_place;
use store::Row;

// The bytes have not just the length of the page.
#[derive(Clone, Copy, Debug, PartialEq, Eq)]
pub struct WrongLength;

// Writes the page of the places, where the bytes have just its length.
pub fn write_page(places: &[Option<Row>], bytes: &mut [u8]) -> Result<(), WrongLength>
    ensures { WriteSays places.now bytes.old bytes.new result }
{
    if bytes.len() % 20 != 0 || bytes.len() / 20 != places.len() {
        return Err(WrongLength);
    }
    // By place, since nothing is promised of bytes that were written through `as_chunks_mut`.
    for (place, held) in places.iter().enumerate() {
        write_place(bytes, place, *held);
    }
    Ok(())
}
