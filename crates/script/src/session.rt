// A session at the counter: bytes come in, and at the end of each line something is said.
ghost use Rattle.std.specs.Prelude.{◌≡◌, []};
ghost use Rattle.script.specs.Gathering.{gathered};
ghost use Rattle.script.specs.Sessions.{HearSays, EndSays, ByFirstBytes};

use crate::counter::Counter;
use crate::pending::Pending;
use crate::printing::Words;
use crate::reply::Said;

#[derive(Drop)]
pub struct Session {
    counter: Counter,
    pending: Pending,
}

const NEWLINE: u8 = b'\n';

impl Session {
    // A session over a counter, before the first byte.
    pub fn new(counter: Counter) -> Session
        ensures counter { result.counter ≡ counter }
        ensures none { gathered result.pending ≡ [] }
    {
        Session {
            counter,
            pending: Pending::new(),
        }
    }

    // Takes one byte in; a newline ends a line, and then something is said of that line.
    pub fn hear(&mut self, byte: u8) -> Option<Said>
        ensures { HearSays self.old self.new byte result }
    {
        if byte != NEWLINE {
            self.pending.push(byte);
            return None;
        }
        let said = self.counter.tell(self.pending.text());
        self.pending.clear();
        Some(said)
    }

    // What is said, in words; a sheet's lines are those that the counter told last.
    pub fn words(&self, said: Said) -> Words<'_>
        ensures said { result.said ≡ said }
        ensures sheet { result.sheet.now ≡ self.now.counter.sheet }
    {
        Words {
            said,
            sheet: self.counter.sheet(),
        }
    }

    // The input has ended; if bytes came after the last newline, they are a line too.
    pub fn end(&mut self) -> Option<Said>
        ensures { EndSays self.old self.new result }
    {
        if self.pending.text().is_empty() {
            return None;
        }
        self.hear(NEWLINE)
    }
}

// The first 201 bytes of a line decide all that is said of it.
pub fn first_bytes_decide()
    ensures { ByFirstBytes }
{}
