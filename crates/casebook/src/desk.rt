// What a line does to the record and the lent buffers, and its answer line: first what it lends, of the whole buffers, then what it does, over what
// is lent.
ghost use Rattle.std.specs.Prelude.{◌≡◌, ◌*◌, ◌≤◌, length};
ghost use Rattle.caselines.specs.Lent.{Within};
ghost use Rattle.caselines.specs.Limits.{frame_most, image_most, uid_length, entries_most, tags_most, row_most};
ghost use Rattle.cabi.specs.Calls.{kind_in};

use caselines::entries::put_entries;
use caselines::form::{Form, form_of};
use caselines::lent::{Lent, lend};
use caselines::limits::{ENTRIES, FRAME, IMAGE, MEMORY, ROOM, ROW, TAGS, UID, UIDS};
use caselines::row::{put_call, put_search};
use packed::RECORD;
use record::Kind;

// A kind's number in the C interface, which takes no other for an event.
fn number_of(kind: Kind) -> u32
    ensures meant { kind_in result ≡ kind }
    ensures taken { result ≤ 3 }
{
    match kind {
        Kind::FieldOn => 0,
        Kind::FieldOff => 1,
        Kind::EndOfFrame => 2,
        Kind::Request => 3,
    }
}

// "a list of n entries (0 to 300), each entry EEEEEEEEEEEEEEEEh, and tags given by their UIDs"
#[tactic(auto, using(text::proofs::Texts::bytes_length))]
fn search(n: usize, digits: &[u8], out: &mut [u8; ROW]) -> usize
    requires entries { n ≤ entries_most }
    requires tags { length digits.now ≤ 2 * (uid_length * tags_most) }
    ensures { result ≤ row_most }
{
    let mut bytes = [0u8; UIDS];
    let k = text::put_bytes(digits, &mut bytes);
    let mut uids = [0u64; TAGS];
    let tags = put_entries(&bytes[..k], &mut uids);
    let mut entries = [0xEEEE_EEEE_EEEE_EEEEu64; ENTRIES];
    let list = &mut entries[..n];
    let result = cabi::uistermo_search(&uids[..tags], list);
    put_search(result, tags, list, out)
}

// How much is lent, which lies within the buffers.
#[derive(Clone, Copy)]
struct Share {
    lent: Lent,
    ghost within: { Within lent },
}

// An event, beside as much of memory and room as is lent. A function over the fields: of a method the borrow checker does not cover two fields that are lent
// on at once.
#[tactic(auto, using(text::proofs::Texts::bytes_length))]
fn event(
    kind: Kind,
    digits: &[u8],
    share: Share,
    tag: &mut [u8; RECORD],
    memory: &mut [u8; MEMORY],
    room: &mut [u8; ROOM],
    out: &mut [u8; ROW],
) -> usize
    requires { length digits.now ≤ 2 * frame_most }
    ensures { result ≤ row_most }
{
    let mut frame = [0u8; FRAME];
    let n = text::put_bytes(digits, &mut frame);
    let memory = &mut memory[..share.lent.memory];
    let room = &mut room[..share.lent.room];
    let given = cabi::uistermo_event(tag, memory, room, number_of(kind), &frame[..n]);
    put_call(given, tag, memory, room, out)
}

// The record, the buffers, and how much of them is lent: `caselines::lent::lend` promises of whole buffers, so they stand whole beside it.
#[derive(Drop)]
pub struct Desk {
    tag: [u8; RECORD],
    memory: [u8; MEMORY],
    room: [u8; ROOM],
    share: Share,
}

impl Desk {
    // "At the start: memory 2,048 bytes of 0, room 10,243 bytes of EEh, record: factory 16 Kbit tag with UID 0."
    pub fn new() -> Desk {
        let mut tag = [0u8; RECORD];
        let mut memory = [0u8; MEMORY];
        let lent = Lent {
            memory: 2048,
            room: 10243,
        };
        cabi::uistermo_factory(&mut tag, 0, &mut memory[..lent.memory]);
        Desk {
            tag,
            memory,
            room: [0xEE; ROOM],
            share: Share { lent },
        }
    }

    // The answer line of a call that gave a result.
    fn put_row(&self, given: u64, out: &mut [u8; ROW]) -> usize
        ensures { result ≤ row_most }
    {
        let memory = &self.memory[..self.share.lent.memory];
        let room = &self.room[..self.share.lent.room];
        put_call(given, &self.tag, memory, room, out)
    }

    #[tactic(auto, using(text::proofs::Texts::bytes_length))]
    fn load(&mut self, digits: &[u8], out: &mut [u8; ROW]) -> usize
        requires { length digits.now ≤ 2 * image_most }
        ensures { result ≤ row_most }
    {
        let mut image = [0u8; IMAGE];
        let n = text::put_bytes(digits, &mut image);
        let mut tag = self.tag;
        let lent = self.share.lent.memory;
        let given = cabi::uistermo_load(&mut tag, &image[..n], &mut self.memory[..lent]);
        self.tag = tag;
        self.put_row(given, out)
    }

    // "8 bytes, a UID as it travels": its lowest byte first
    #[tactic(auto, using(text::proofs::Texts::bytes_length))]
    fn factory(&mut self, digits: &[u8], out: &mut [u8; ROW]) -> usize
        requires { length digits.now ≤ 2 * uid_length }
        ensures { result ≤ row_most }
    {
        let mut uid = [0u8; UID];
        text::put_bytes(digits, &mut uid);
        let mut tag = self.tag;
        let lent = self.share.lent.memory;
        let uid = u64::from_le_bytes(uid);
        let given = cabi::uistermo_factory(&mut tag, uid, &mut self.memory[..lent]);
        self.tag = tag;
        self.put_row(given, out)
    }

    // "saves into an image of n (0 to 8,300) bytes of EEh"
    fn save(&self, n: usize, out: &mut [u8; ROW]) -> usize
        requires { n ≤ image_most }
        ensures { result ≤ row_most }
    {
        let mut bytes = [0xEEu8; IMAGE];
        let image = &mut bytes[..n];
        let memory = &self.memory[..self.share.lent.memory];
        let given = cabi::uistermo_save(&self.tag, memory, image);
        put_call(given, &self.tag, memory, image, out)
    }

    // A line: what it asks for, what it lends, and what it does. The answer line goes to the start of out.
    #[tactic(auto, using(text::proofs::Texts::bytes_length))]
    pub fn answer(&mut self, line: &[u8], out: &mut [u8; ROW]) -> usize
        ensures { result ≤ row_most }
    {
        let form = form_of(line, self.share.lent.memory);
        let Some(asked) = form else {
            return put::copy(b"?\n", out);
        };
        match asked {
            Form::Memory(_) | Form::Room(_) => {
                let lent = lend(form, self.share.lent, &mut self.memory, &mut self.room);
                self.share = Share { lent };
            }
            Form::Save(n) => return self.save(n, out),
            Form::Load(digits) => return self.load(digits, out),
            Form::Factory(digits) => return self.factory(digits, out),
            Form::Event { kind, digits } => {
                return event(
                    kind,
                    digits,
                    self.share,
                    &mut self.tag,
                    &mut self.memory,
                    &mut self.room,
                    out,
                );
            }
            Form::Search { entries, digits } => return search(entries, digits, out),
            // "the record, exactly 72 bytes, kept as they stand"
            Form::Record(digits) => {
                text::put_bytes(digits, &mut self.tag);
            }
            // "bytes into the memory, within it"
            Form::Bytes { at, digits } => {
                let lent = self.share.lent.memory;
                text::put_bytes(digits, &mut self.memory[at..lent]);
            }
        }
        put::copy(b"ok\n", out)
    }
}
