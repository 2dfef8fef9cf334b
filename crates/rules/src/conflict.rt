// A conflict as the list holds it: its places, ascending, and its rule.
ghost use Rattle.std.specs.Prelude.{◌≡◌, ◌≤◌, length};

pub mod making;
pub mod order;

// Memory is fixed: a list of 1,024 is 8 KiB with eight bytes for each, and 24 KiB with a `Few` and its count of eight bytes.
// Places are below 256 and rules below 16.
#[derive(Clone, Copy)]
pub struct Conflict {
    places: [u16; 3],
    size: u8,
    rule: u8,
    ghost three: { length places ≡ 3 },
    ghost few: { size ≤ 3 },
}
