// The session program of document 01: standard input to standard output, whatever its size, in pieces and with constant memory. Each byte goes
// to `lines`, and each output line is written when its input line is complete.
#![tactic(auto)]

use lines::Progress;
use std::io;

// How far a session is, its tag's memory, and what `lines` answers in.
#[derive(Drop)]
struct Session {
    progress: Progress,
    memory: [u8; 2048],
    room: [u8; 10243],
    out: [u8; 20508],
}

impl Session {
    fn new() -> Session {
        let mut memory = [0u8; 2048];
        let progress = lines::start(&mut memory);
        Session {
            progress,
            memory,
            room: [0; 10243],
            out: [0; 20508],
        }
    }

    fn feed(&mut self, rt: &impl Print, byte: u8) -> io::Result<()> {
        let fed = lines::feed(
            self.progress,
            byte,
            &mut self.memory,
            &mut self.room,
            &mut self.out,
        );
        self.progress = fed.progress;
        rt.write_all(&self.out[..fed.length])
    }

    // A last line may lack its newline.
    fn finish(&mut self, rt: &impl Print) -> io::Result<()> {
        let fed = lines::finish(
            self.progress,
            &mut self.memory,
            &mut self.room,
            &mut self.out,
        );
        self.progress = fed.progress;
        rt.write_all(&self.out[..fed.length])
    }
}

// After a read or write that failed nothing more is read or written.
fn main(rt: HostRuntime) {
    let mut session = Session::new();
    if pieces::each_byte(&mut rt.stdin(), |byte| session.feed(&rt, byte)).is_ok() {
        let _ = session.finish(&rt);
    }
}
