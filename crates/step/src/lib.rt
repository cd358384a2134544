// One event on a record by value: commands, held answers, inventory rounds, the end of a frame, field on and off, and the answer with its
// CRC. Memory and answer room are lent.
#![tactic(auto)]

mod answers; // answers.rt: answers as they are written, at once or held
mod commands; // commands.rt: what each command does
mod rounds; // rounds.rt: Inventory and its rounds, the end of a frame

ghost use Rattle.std.specs.Prelude.{◌≡◌, true, ◌≤◌, length, if◌then◌else◌};
ghost use Rattle.rights.specs.Vault.{view_of};
ghost use Rattle.record.specs.Update.{with_front, passing_cleared, sessionless};
ghost use Rattle.tag.specs.Rules.{blocks_of};
ghost use Rattle.tag.specs.Step.{dropped, event_of, frame_of, performed, step};
ghost use Rattle.tag.specs.Host.{is_memory};
ghost use Rattle.step.specs.Gives.{Gives, GivesUnsealed};

use answers::{seal, settle, silent};
use commands::{execute, moved};
use record::{Front, Kind, Outcome, State, Tag};
use rounds::{end_frame, take_inventory};
use tag::Heard;

// "answer room is below 10,243 bytes": no answer is longer. The room by its type, so that no function here has to ask for its length.
pub const ROOM: usize = 10243;

// "In the field, any frame first drops a round and a held answer."
fn drop_round(t: Tag) -> Tag
    ensures { result ≡ with_front t (dropped t.front) }
{
    let front = Front {
        round: None,
        held: None,
        ..t.front
    };
    record::set_front(t, front)
}

// A frame in the field, of a tag with neither round nor held answer.
fn take_frame(t: Tag, frame: &[u8], memory: &mut [u8], room: &mut [u8; ROOM]) -> Outcome
    requires memory_value { is_memory memory.old ≡ true }
    ensures { GivesUnsealed (performed t memory.old (frame_of t.front (view_of t.vault) (blocks_of memory.old)
        frame.now)) room.old memory.new room.new result }
{
    match frame::hear(t.front, frame) {
        Heard::Silence => silent(t),
        Heard::Deselected => silent(moved(t, State::Ready)),
        Heard::Inventory => take_inventory(t, frame, room),
        Heard::Error(code) => settle(false, Err(code), t, room),
        Heard::Request {
            entry,
            option,
            start,
        } => {
            let end = frame.len() - 2;
            execute(t, entry, option, &frame[start..end], memory, room)
        }
    }
}

// "Field off clears passing parts; field on gives Ready; field on when on does nothing."
fn field_on(t: Tag) -> Tag
    ensures { result ≡ (if t.front.field then t else record { front = passing_cleared t.front true; vault = sessionless t.vault }) }
{
    if t.front.field {
        return t;
    }
    record::power(t, true)
}

// An event, with its answer before the CRC. `step` alone gives the length with the CRC: in what it calls the answer has none yet. That the
// memory is of a size stands as a `requires` on the way from here to a read, since C lends it as a slice: a type for it would have to be opened
// again for each block that is read or written.
fn take_event(t: Tag, kind: Kind, frame: &[u8], memory: &mut [u8], room: &mut [u8; ROOM]) -> Outcome
    requires memory_value { is_memory memory.old ≡ true }
    ensures { GivesUnsealed (step t memory.old (event_of kind frame.now)) room.old
        memory.new room.new result }
{
    match kind {
        Kind::FieldOn => silent(field_on(t)),
        Kind::FieldOff => silent(record::power(t, false)),
        Kind::EndOfFrame if t.front.field => end_frame(t, room),
        Kind::Request if t.front.field => take_frame(drop_round(t), frame, memory, room),
        Kind::EndOfFrame | Kind::Request => silent(t),
    }
}

// One event. "CRC follows.": it is put to every answer here.
pub fn step(t: Tag, kind: Kind, frame: &[u8], memory: &mut [u8], room: &mut [u8]) -> Outcome
    requires memory_value { is_memory memory.old ≡ true }
    requires in_bounds { 10243 ≤ length room.old }
    ensures { Gives (step t memory.old (event_of kind frame.now)) room.old
        memory.new room.new result }
{
    let room = room.first_chunk_mut::<ROOM>().unwrap();
    let s = take_event(t, kind, frame, memory, room);
    Outcome {
        length: seal(s.length, room),
        ..s
    }
}
