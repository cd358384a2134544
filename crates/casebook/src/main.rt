// The bench's own test program: standard input to standard output, in pieces and with constant memory. Each line is a call over the C
// boundary, and its answer line is written when the line is complete.
#![tactic(auto)]

mod desk; // desk.rt: the record and the lent buffers, and what a line does to them

ghost use Rattle.std.specs.Prelude.{◌≡◌, [], ◌∷◌, ◌++◌, take};
ghost use Rattle.caselines.specs.Limits.{line_most};

use arrayvec::ArrayVec;
use caselines::limits::{LINE, ROW};
use desk::Desk;
use pieces::Fault;
use std::io;

// One byte more of the line so far. It is kept up to LINE bytes, one more than the longest that has a form: a longer line has none, whatever comes.
fn keep(line: &mut ArrayVec<u8, LINE>, byte: u8)
    ensures { line.new.items ≡ take line_most (line.old.items ++ byte ∷ []) }
{
    if !line.is_full() {
        line.push(byte);
    }
}

// The desk, and the line so far.
#[derive(Drop)]
struct Session {
    desk: Desk,
    line: ArrayVec<u8, LINE>,
}

impl Session {
    // The line so far ends: it is answered.
    fn end_line(&mut self, rt: &impl Print) -> io::Result<()> {
        let mut out = [0u8; ROW];
        let n = self.desk.answer(&self.line, &mut out);
        self.line.clear();
        rt.write_all(&out[..n])
    }

    fn feed(&mut self, rt: &impl Print, byte: u8) -> io::Result<()> {
        if byte == b'\n' {
            return self.end_line(rt);
        }
        keep(&mut self.line, byte);
        Ok(())
    }

    // A last line may lack its newline.
    fn finish(&mut self, rt: &impl Print) -> io::Result<()> {
        if self.line.is_empty() {
            return Ok(());
        }
        self.end_line(rt)
    }
}

// A read that fails ends the input; after a write that failed nothing more is written.
fn main(rt: HostRuntime) {
    let mut session = Session {
        desk: Desk::new(),
        line: ArrayVec::new(),
    };
    let ended = pieces::each_byte(&mut rt.stdin(), |byte| session.feed(&rt, byte));
    if !matches!(ended, Err(Fault::Write(_))) {
        let _ = session.finish(&rt);
    }
}
