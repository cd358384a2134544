// Answers, written into the lent room: "Success begins 00h; an error is 01h, code; CRC follows." `seal` puts the CRC to each of them, last.
// Each returns the length in the room, which is the caller's. Tag, hold and room are handed on one by one: a struct of them would borrow the room for as long
// as it stands, and be opened for each answer.
ghost use Rattle.std.specs.Prelude.{◌≡◌, [], ◌∷◌, ◌+◌, ◌≤◌, ◌<◌, length, take, drop};
ghost use Rattle.put.specs.Put.{Put};
ghost use Rattle.put.specs.Number.{bytes_of};
ghost use Rattle.tag.specs.Inventory.{inventory_answer};
ghost use Rattle.tag.specs.Work.{verdict, error, body, says};
ghost use Rattle.step.specs.Gives.{sealed_unless_silent, unsealed_of, Does, tag_after, verdict_of};

use super::ROOM;
use record::{Front, Outcome, Tag};
use rights::Verdict;

// "CRC follows.": the CRC of the first n bytes goes after them. Silence, of no bytes, stays silence.
pub fn seal(n: usize, room: &mut [u8; ROOM]) -> usize
    requires { n ≤ 10241 }
    ensures { Put (sealed_unless_silent (take n room.old)) room.old room.new result }
{
    if n == 0 {
        return 0;
    }
    let c = crc::crc_bytes(&room[..n]);
    room[n] = c[0];
    room[n + 1] = c[1];
    n + 2
}

// "Success begins 00h": the flags byte before a body of n bytes that stands from the second byte on.
pub fn put_success(n: usize, room: &mut [u8; ROOM]) -> usize
    requires { n < 10243 }
    ensures { Put (unsealed_of (body (take n (drop 1 room.old)))) room.old room.new result }
{
    room[0] = 0x00;
    n + 1
}

// "an error is 01h, code"
fn put_error(code: u8, room: &mut [u8; ROOM]) -> usize
    ensures { Put (unsealed_of (error code)) room.old room.new result }
{
    room[0] = 0x01;
    room[1] = code;
    2
}

fn put_verdict(v: Verdict, room: &mut [u8; ROOM]) -> usize
    ensures { Put (unsealed_of (verdict v)) room.old room.new result }
{
    match v {
        Ok(()) => put_success(0, room),
        Err(code) => put_error(code, room),
    }
}

pub fn put_register(value: u8, room: &mut [u8; ROOM]) -> usize
    ensures { Put (unsealed_of (body (value ∷ []))) room.old room.new result }
{
    room[1] = value;
    put_success(1, room)
}

// DSFID and UID, the body of an Inventory's answer, go to the start of out.
fn put_identity(f: Front, out: &mut [u8]) -> usize
    requires { 9 ≤ length out.old }
    ensures { Put (f.dsfid ∷ bytes_of 8 f.uid) out.old out.new result }
{
    out[0] = f.dsfid;
    1 + put::put_number(f.uid, 8, &mut out[1..])
}

// "Answer: 00h, DSFID, UID, CRC.", before its CRC.
pub fn put_inventory(f: Front, room: &mut [u8; ROOM]) -> usize
    ensures { Put (unsealed_of (inventory_answer f)) room.old room.new result }
{
    let n = put_identity(f, &mut room[1..]);
    put_success(n, room)
}

// No answer: the tag alone.
pub fn silent(t: Tag) -> Outcome
    ensures { result ≡ record { length = 0; tag = t } }
{
    Outcome { length: 0, tag: t }
}

// "holds the answer, error or success", or gives it at once.
pub fn settle(hold: bool, v: Verdict, t: Tag, room: &mut [u8; ROOM]) -> Outcome
    ensures { Does hold t (says (verdict v)) room.old room.new result }
{
    if hold {
        let front = record::set_held(t.front, Some(v));
        return silent(record::set_front(t, front));
    }
    let length = put_verdict(v, room);
    Outcome { length, tag: t }
}

// What is refused leaves the tag as it was, and what is granted makes it the next one.
pub fn conclude(hold: bool, t: Tag, made: Result<Tag, u8>, room: &mut [u8; ROOM]) -> Outcome
    ensures { Does hold (tag_after made t) (says (verdict (verdict_of made))) room.old room.new result }
{
    match made {
        Ok(next) => settle(hold, Ok(()), next, room),
        Err(code) => settle(hold, Err(code), t, room),
    }
}
