// An input of any size, read in pieces with constant memory and given on byte by byte.
#![tactic(auto)]

ghost use Rattle.std.specs.Prelude.{OnOk};
ghost use Rattle.std.specs.Io.KnownBytes.{IsAtEnd};
ghost use Rattle.pieces.specs.Fed.{Fed};

use std::io;
use std::io::{ErrorKind, Read};

// What ended a run before its input did.
#[derive(Debug, Drop)]
pub enum Fault {
    Read(io::Error),
    Write(io::Error),
}

// Each byte of the input goes to `feed`, which writes, to the end of the input or to a read or write that fails. A proved loop has to end, so it
// has as many turns as no run takes. The contract says what an `Ok` means. Of an `Err` it leaves open what was read and fed before; after it nothing
// more is.
pub fn each_byte<R: Read, F: FnMut(u8) -> io::Result<()>>(
    input: &mut R,
    mut feed: F,
) -> Result<(), Fault>
    requires { F.IsAlwaysCallable feed }
    ensures end { OnOk result (IsAtEnd (R.remaining input.new)) }
    ensures fed { OnOk result (Fed F.step (R.remaining input.old) (R.remaining input.new) feed) }
{
    let mut buffer = [0u8; 4096];
    for _ in 0..u64::MAX {
        let n = input.read(&mut buffer).map_err(Fault::Read)?;
        if n == 0 {
            return Ok(());
        }
        for &byte in &buffer[..n] {
            feed(byte).map_err(Fault::Write)?;
        }
    }
    Err(Fault::Read(io::Error::from(ErrorKind::FileTooLarge)))
}
