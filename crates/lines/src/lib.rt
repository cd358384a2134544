// The text of a session, as document 01 says ("Session program"): one call for each input byte, and one for the end of the input.
#![tactic(auto)]

mod form; // form.rt: what a line is, and the frame of a request
mod output; // output.rt: an output line

ghost use Rattle.std.specs.Prelude.{◌≡◌, ◌≤◌, length};
ghost use Rattle.put.specs.Put.{Put};
ghost use Rattle.tag.specs.Host.{EventGives, length_in};
ghost use Rattle.lines.specs.Form.{event_in};
ghost use Rattle.lines.specs.Output.{first_memory, text_of};
ghost use Rattle.lines.specs.Calls.{started, with_byte, after_line, ended, fed, finished, Gives};

use image::reading::factory;
use record::{Kind, Outcome, Refusal, Tag};

// How far a session is: the tag, the number of the next output line, and the line so far, which is kept up to 129 bytes: a longer line has
// no form, whatever comes. A session is a plain value that a call takes and gives back, which an `ArrayVec` of the line, not `Copy`, would not be.
#[derive(Clone, Copy)]
pub struct Progress {
    pub tag: Tag,
    pub number: u64,
    pub length: usize,
    pub line: [u8; 129],
}

// What a call gives: how far the session is then, and how many bytes of output it wrote.
#[derive(Clone, Copy)]
pub struct Fed {
    pub progress: Progress,
    pub length: usize,
}

// One byte more of the line so far.
#[tactic(auto, unfolding(crate::specs::Calls::with_byte))]
fn add_byte(p: Progress, byte: u8) -> Progress
    ensures { result ≡ with_byte p byte }
{
    let mut next = p;
    if p.length < p.line.len() {
        next.line[p.length] = byte;
        next.length += 1;
    }
    next
}

// The event of a line. Its 129 bytes at most are 64 of a frame, and two for the CRC.
#[tactic(auto, using(text::proofs::Texts::bytes_length))]
fn happen(
    tag: Tag,
    kind: Kind,
    line: &[u8],
    memory: &mut [u8],
    room: &mut [u8],
) -> Result<Outcome, Refusal>
    requires { length line.now ≤ 129 }
    ensures given { EventGives tag (event_in kind line.now) memory.old room.old
        memory.new room.new result }
    ensures within { length_in result ≤ length room.new }
{
    let mut frame = [0u8; 66];
    let n = form::put_frame(line, &mut frame);
    host::event(tag, kind, &frame[..n], memory, room)
}

// The output line of a line, after which the tag is as given.
#[tactic(auto, unfolding(crate::specs::Output::next_number), using(crate::proofs::OutputLine::longest_most))]
fn say(p: Progress, tag: Tag, mark: u8, answer: &[u8], out: &mut [u8; 20508]) -> Fed
    requires { length answer.now ≤ 10243 }
    ensures given { (result.progress ≡ after_line p tag)
        × Put (text_of p.number mark answer.now) out.old out.new result.length }
    ensures within { result.length ≤ 20508 }
{
    let length = output::put_line(p.number, mark, answer, out);
    let progress = Progress {
        tag,
        number: p.number.saturating_add(1),
        length: 0,
        ..p
    };
    Fed { progress, length }
}

// Memory, room and out are lent one by one here, as in `feed` and `finish`, whose signatures may not change: a struct of them would serve this function
// alone. The line so far ends, of which its 129 bytes at most are there, whatever its length says.
#[tactic(auto, using(crate::proofs::Answered::answer_of), unfolding(crate::specs::Calls::ended))]
fn end_line(
    p: Progress,
    memory: &mut [u8; 2048],
    room: &mut [u8; 10243],
    out: &mut [u8; 20508],
) -> Fed
    ensures given { Gives (ended p memory.old room.old) out.old memory.new room.new
        out.new result }
    ensures within { result.length ≤ 20508 }
{
    let line = &p.line[..p.length.min(p.line.len())];
    match form::form_of(line) {
        Some(kind) => {
            let silence = Outcome {
                length: 0,
                tag: p.tag,
            };
            let outcome = happen(p.tag, kind, line, memory, room).unwrap_or(silence);
            say(p, outcome.tag, b'-', &room[..outcome.length], out)
        }
        None => say(p, p.tag, b'?', &[], out),
    }
}

// A session that begins: "a factory 16 Kbit tag of UID E0 02 23 04 01 D6 C8 F0", with its memory, and no line yet. A memory of this size is
// not refused, and of the record that the call is made on nothing is looked at.
pub fn start(memory: &mut [u8; 2048]) -> Progress
    ensures { (result ≡ started) × (memory.new ≡ first_memory) }
{
    let made = host::factory(factory(63, 0), 0xE002_2304_01D6_C8F0, memory).unwrap();
    Progress {
        tag: made.tag,
        number: 1,
        length: 0,
        line: [0u8; 129],
    }
}

// A byte of the input: a newline ends the line so far, whose output line goes to the start of out. The memory is that of a 16 Kbit tag, the
// room the least that an event takes, and out has room for the longest output line: 20 digits, a space, two digits a byte, a newline.
#[tactic(auto, unfolding(crate::specs::Calls::fed))]
pub fn feed(
    p: Progress,
    byte: u8,
    memory: &mut [u8; 2048],
    room: &mut [u8; 10243],
    out: &mut [u8; 20508],
) -> Fed
    ensures given { Gives (fed p byte memory.old room.old) out.old memory.new room.new
        out.new result }
    ensures within { result.length ≤ 20508 }
{
    if byte == b'\n' {
        return end_line(p, memory, room, out);
    }
    let progress = add_byte(p, byte);
    Fed {
        progress,
        length: 0,
    }
}

// The end of the input: a last line that lacks its newline ends too.
#[tactic(auto, unfolding(crate::specs::Calls::finished))]
pub fn finish(
    p: Progress,
    memory: &mut [u8; 2048],
    room: &mut [u8; 10243],
    out: &mut [u8; 20508],
) -> Fed
    ensures given { Gives (finished p memory.old room.old) out.old memory.new room.new
        out.new result }
    ensures within { result.length ≤ 20508 }
{
    if p.length == 0 {
        return Fed {
            progress: p,
            length: 0,
        };
    }
    end_line(p, memory, room, out)
}
