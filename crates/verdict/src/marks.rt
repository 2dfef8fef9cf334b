// Places, one mark byte to each.
ghost use Rattle.std.specs.Prelude.{◌≡◌, ◌≤◌, true, length, ◌==◌, replicate, slice_index};
ghost use Rattle.cores.specs.Backing.{without};
ghost use Rattle.verdict.specs.Marking.{have_bytes, Adds};
ghost use Rattle.verdict.specs.Lacking.{LackSays};

// What a byte says of the row at its place: that it is in, or that rows that are in shut it out.
pub const IN: u8 = 1;

pub const SHUT: u8 = 2;

// Whether the byte of a place says this.
pub fn says(marks: &[u8], place: usize, mark: u8) -> bool
    ensures { result ≡ (slice_index marks.now place == mark) }
{
    *marks.get(place).unwrap_or(&0) == mark
}

// Makes all bytes zero.
pub fn wipe(marks: &mut [u8])
    ensures { marks.new ≡ replicate (length marks.old) 0 }
{
    marks.fill(0);
}

// Marks the rows at these places as in.
pub fn mark_each(marks: &mut [u8], places: &[u16])
    requires room { 256 ≤ length marks.old }
    requires inside { have_bytes places.now ≡ true }
    ensures { Adds places.now marks.old marks.new }
{
    for place in places {
        marks[*place as usize] = IN;
    }
}

// Marks the rows at these places as in, but for the one at `place`.
pub fn mark_others(marks: &mut [u8], places: &[u16], place: u16)
    requires room { 256 ≤ length marks.old }
    requires inside { have_bytes places.now ≡ true }
    ensures { Adds (without place places.now) marks.old marks.new }
{
    for other in places {
        if *other != place {
            marks[*other as usize] = IN;
        }
    }
}

// What a conflict lacks to be marked whole.
#[derive(Clone, Copy)]
pub enum Lack {
    Nothing,
    // The row at this place alone.
    One(u16),
    // More than one row.
    More,
}

// What the conflict with these places lacks.
pub fn lacking(marks: &[u8], places: &[u16]) -> Lack
    ensures { LackSays marks.now places.now result }
{
    let mut lack = Lack::Nothing;
    for place in places {
        if !says(marks, *place as usize, IN) {
            match lack {
                Lack::Nothing => lack = Lack::One(*place),
                _ => return Lack::More,
            }
        }
    }
    lack
}
