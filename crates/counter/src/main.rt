// The program: lines come in on standard input, and words go out on standard output.
#![tactic(auto)]

use script::{Counter, Session, Words};
use std::io;
use std::io::{Read, Write};

// Input is read in blocks of this size, so that a block of lines costs one read.
const BLOCK: usize = 16384;

// Room for what is said of a line: the longest, a sheet of 256 lines, has for each eight numbers of ten digits, a space or a
// newline behind each, and closes with `end 256`.
const ROOM: usize = 256 * 8 * 11 + 8;

fn main(rt: HostRuntime) -> io::Result<()> {
    let mut session = Session::new(Counter::new());
    let mut input = rt.stdin();
    let mut output = rt.stdout();
    let mut block = [0u8; BLOCK];
    let mut room = [0u8; ROOM];
    // A program is proved to end, so the reads are counted: so many that no input lasts so long.
    for _ in 0..u64::MAX {
        let length = input.read(&mut block)?;
        if length == 0 {
            break;
        }
        answer(&mut session, &block[0..length], &mut room, &mut output)?;
    }
    if let Some(said) = session.end() {
        say(&session.words(said), &mut room, &mut output)?;
    }
    output.flush()
}

// Hands a block of bytes to the session, and writes what it says.
fn answer<W: Write>(
    session: &mut Session,
    block: &[u8],
    room: &mut [u8; ROOM],
    output: &mut W,
) -> io::Result<()> {
    for byte in block {
        if let Some(said) = session.hear(*byte) {
            say(&session.words(said), room, output)?;
        }
    }
    Ok(())
}

// Writes the words of a line by one write; words for which there were no room would go out piece by piece.
fn say<W: Write>(words: &Words<'_>, room: &mut [u8; ROOM], output: &mut W) -> io::Result<()> {
    let mut free = &mut room[..];
    if writeln!(free, "{words}").is_err() {
        return writeln!(output, "{words}");
    }
    let length = ROOM.saturating_sub(free.len());
    output.write_all(&room[0..length])
}
