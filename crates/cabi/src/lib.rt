// The C boundary: the calls of a host over bytes, and for a search over UIDs, so that the bench's C host links the proved tag. The record is 72 bytes that
// the caller keeps; any bytes are taken, and those that are no record are refused. `include/uistermo.h` says the same in C, and `cabi_c` hands each call to C.
#![tactic(auto)]

ghost use Rattle.std.specs.Prelude.{◌≡◌, ltb, if◌then◌else◌, Some, None};
ghost use Rattle.tag.specs.Host.{number_of, place_of};
ghost use Rattle.packed.specs.Result.{result_of};
ghost use Rattle.cabi.specs.Calls.{kind_in, returned, EventLeaves, LoadLeaves, SaveLeaves, FactoryLeaves, SearchLeaves};

use host::{fits_image, is_image, is_memory, last_end};
use image::rules::{header_fault, header_right};
use image::{reading, writing};
use packed::{RECORD, is_record, read_record, write_passing, write_record};
use put::fill;
use record::{Kind, Outcome, Refusal};

// The numbers of 01 and 02; 5a to 5e are 5Ah to 5Eh. They are the C interface: only here has a refusal a number. No `From`: `Refusal` and `Kind` are types
// of `record`, which knows nothing of C.
fn number(r: Refusal) -> u64
    ensures { result ≡ number_of (Some r) }
{
    match r {
        Refusal::Memory => 1,
        Refusal::Room => 2,
        Refusal::Record => 3,
        Refusal::Image => 4,
        Refusal::Mark(_) => 0x5A,
        Refusal::Lock(_) => 0x5B,
        Refusal::Protection(_) => 0x5C,
        Refusal::End(_) => 0x5D,
        Refusal::Reserved(_) => 0x5E,
        Refusal::Tags => 6,
        Refusal::Equal => 7,
        Refusal::Small => 18,
    }
}

// 02: ".. with the lowest offending byte's place", in the C interface too, 0 for a refusal that has none
fn place(r: Refusal) -> u8
    ensures { result ≡ place_of (Some r) }
{
    match r {
        Refusal::Mark(at)
        | Refusal::Lock(at)
        | Refusal::Protection(at)
        | Refusal::End(at)
        | Refusal::Reserved(at) => at,
        _ => 0,
    }
}

// "place × 2^48 + number × 2^32 + length", which is 0 where a call is refused
fn refused(r: Refusal) -> u64
    ensures { result ≡ result_of (place_of (Some r)) (number_of (Some r)) 0 }
{
    place(r) as u64 * 0x1_0000_0000_0000 + number(r) * 0x1_0000_0000
}

// The kinds, as C numbers them: 0 on, 1 off, 2 end of frame, 3 request
fn kind_in(k: u32) -> Option<Kind>
    ensures { result ≡ (if ltb 3 k then None else Some (kind_in k)) }
{
    match k {
        0 => Some(Kind::FieldOn),
        1 => Some(Kind::FieldOff),
        2 => Some(Kind::EndOfFrame),
        3 => Some(Kind::Request),
        _ => None,
    }
}

#[tactic(auto, using(host::proofs::Lent::blocks_by_end), unfolding(crate::specs::Calls::event_left))]
fn event(
    bytes: &mut [u8; RECORD],
    memory: &mut [u8],
    room: &mut [u8],
    kind: u32,
    frame: &[u8],
) -> Result<u64, Refusal>
    ensures { EventLeaves kind frame.now bytes.old memory.old room.old
        bytes.new memory.new room.new (returned result) }
{
    let size = memory.len();
    if !is_memory(size) {
        return Err(Refusal::Memory);
    }
    if room.len() < step::ROOM {
        return Err(Refusal::Room);
    }
    if !is_record(bytes, size, last_end(size)) {
        return Err(Refusal::Record);
    }
    let Some(kind) = kind_in(kind) else {
        return Ok(0);
    };
    let Outcome { length, tag } = step::step(read_record(bytes), kind, frame, memory, room);
    match kind {
        Kind::Request => write_record(tag, size, bytes),
        _ => write_passing(tag, bytes), // only a frame changes lasting parts
    }
    Ok(length as u64)
}

// An event. Another kind than 0 to 3 is none: after checks 1 to 3, silence and nothing changed
pub fn uistermo_event(
    bytes: &mut [u8; RECORD],
    memory: &mut [u8],
    room: &mut [u8],
    kind: u32,
    frame: &[u8],
) -> u64
    ensures { EventLeaves kind frame.now bytes.old memory.old room.old
        bytes.new memory.new room.new result }
{
    event(bytes, memory, room, kind, frame).unwrap_or_else(refused)
}

#[tactic(auto, using(host::proofs::Lent::blocks_by_end, host::proofs::Lent::header_kept), unfolding(crate::specs::Calls::load_left, tag::specs::Host::load_given))]
fn load(bytes: &mut [u8; RECORD], image: &[u8], memory: &mut [u8]) -> Result<u64, Refusal>
    ensures { LoadLeaves image.now bytes.old memory.old bytes.new memory.new (returned result) }
{
    let size = memory.len();
    let length = image.len();
    if !is_image(length) {
        return Err(Refusal::Image);
    }
    if !fits_image(size, length) {
        return Err(Refusal::Memory);
    }
    let e = last_end(size);
    if !header_right(image, e) {
        header_fault(image, e)?;
    }
    write_record(reading::load(image, memory), size, bytes);
    Ok(0)
}

// 01: "Loading checks 4, then 1, then 5"; 02: "5a to 5e stand where 5 stood." "LOAD does not look at them", the bytes that were there
pub fn uistermo_load(bytes: &mut [u8; RECORD], image: &[u8], memory: &mut [u8]) -> u64
    ensures { LoadLeaves image.now bytes.old memory.old bytes.new memory.new result }
{
    load(bytes, image, memory).unwrap_or_else(refused)
}

// "the size is the memory's; fills it with zeros; refusal 1, or result 0". It does not look at the bytes that were there either
#[tactic(auto, using(host::proofs::Lent::blocks_by_end), unfolding(crate::specs::Calls::factory_left, tag::specs::Host::factory_given))]
pub fn uistermo_factory(bytes: &mut [u8; RECORD], uid: u64, memory: &mut [u8]) -> u64
    ensures { FactoryLeaves uid bytes.old memory.old bytes.new memory.new result }
{
    if !is_memory(memory.len()) {
        return refused(Refusal::Memory);
    }
    fill(memory, 0);
    write_record(
        reading::factory(last_end(memory.len()), uid),
        memory.len(),
        bytes,
    );
    0
}

#[tactic(auto, using(host::proofs::Lent::blocks_by_end), unfolding(crate::specs::Calls::save_left))]
fn save(bytes: &[u8; RECORD], memory: &[u8], image: &mut [u8]) -> Result<u64, Refusal>
    ensures { SaveLeaves bytes.now memory.now image.old image.new (returned result) }
{
    let size = memory.len();
    if !is_image(image.len()) {
        return Err(Refusal::Image);
    }
    if !fits_image(size, image.len()) {
        return Err(Refusal::Memory);
    }
    if !is_record(bytes, size, last_end(size)) {
        return Err(Refusal::Record);
    }
    Ok(writing::save(read_record(bytes), memory, image) as u64)
}

// "SAVE 4, 1 or 3 in 01's order"
pub fn uistermo_save(bytes: &[u8; RECORD], memory: &[u8], image: &mut [u8]) -> u64
    ensures { SaveLeaves bytes.now memory.now image.old image.new result }
{
    save(bytes, memory, image).unwrap_or_else(refused)
}

// "the length of the result is the number of requests"
pub fn uistermo_search(uids: &[u64], list: &mut [u64]) -> u64
    ensures { SearchLeaves uids.now list.old list.new result }
{
    match tray::search(uids, list) {
        Ok(requests) => u64::from(requests),
        Err(refusal) => refused(refusal),
    }
}
