// The calls of a host: event, load, save and factory, with the numbers 1 to 4 of document 01 and 5a to 5e of 02. Any record, any bytes and any
// buffers are taken, and each call ends; no caller need test anything first. Record, memory and room are lent one by one, as C lends them and as the promises
// name them.
#![tactic(auto)]

pub mod rules; // rules.rt: the record rules

ghost use Rattle.std.specs.Prelude.{◌≡◌, ◌&&◌, ◌||◌, ◌+◌, eqb, if◌then◌else◌};
ghost use Rattle.tag.specs.Step.{event_of};
ghost use Rattle.tag.specs.Host.{EventGives, LoadGives, SaveGives, FactoryGives};

use image::rules::{header_fault, header_right};
use image::{reading, writing};
use record::{Kind, Outcome, Refusal, Tag};
use rules::is_sound;

// Sizes are numbers, and no enum: each call goes by the length of what is lent to it.

// "16 Kbit", in bytes
const SMALL: usize = 2048;

// "64 Kbit", in bytes
const LARGE: usize = 8192;

// An image is a "64-byte header, then user memory".
const HEADER: usize = 64;

// "answer room is below 10,243 bytes"
const LEAST_ROOM: usize = 10243;

// "user memory lent is not 2,048 or 8,192 bytes"
pub fn is_memory(size: usize) -> bool
    ensures { result ≡ (eqb size 2048 || eqb size 8192) }
{
    matches!(size, SMALL | LARGE)
}

// "or does not fit the image's length"
pub fn fits_image(size: usize, length: usize) -> bool
    ensures { result ≡ ((eqb size 2048 || eqb size 8192) && eqb length (64 + size)) }
{
    is_memory(size) && length == HEADER + size
}

// "image is not 2,112 or 8,256 bytes"
pub fn is_image(length: usize) -> bool
    ensures { result ≡ (eqb length 2112 || eqb length 8256) }
{
    length >= HEADER && is_memory(length - HEADER)
}

// "E is 63 or 255.", by the bytes of a memory; a tag goes by its blocks
pub fn last_end(size: usize) -> u8
    ensures { result ≡ (if eqb size 2048 then 63 else 255) }
{
    if size == SMALL { 63 } else { 255 }
}

// "An event checks 1, 2, 3 in that order."
#[tactic(auto, using(crate::proofs::Lent::blocks_by_end), unfolding(tag::specs::Host::event_given))]
pub fn event(
    t: Tag,
    kind: Kind,
    frame: &[u8],
    memory: &mut [u8],
    room: &mut [u8],
) -> Result<Outcome, Refusal>
    ensures { EventGives t (event_of kind frame.now) memory.old room.old
        memory.new room.new result }
{
    if !is_memory(memory.len()) {
        return Err(Refusal::Memory);
    }
    if room.len() < LEAST_ROOM {
        return Err(Refusal::Room);
    }
    if !is_sound(last_end(memory.len()), t) {
        return Err(Refusal::Record);
    }
    Ok(step::step(t, kind, frame, memory, room))
}

// 01: "Loading checks 4, then 1, then 5"; 02: "5a to 5e stand where 5 stood."
#[tactic(auto, using(crate::proofs::Lent::blocks_by_end, crate::proofs::Lent::header_kept), unfolding(tag::specs::Host::load_given))]
pub fn load(t: Tag, image: &[u8], memory: &mut [u8]) -> Result<Outcome, Refusal>
    ensures { LoadGives t image.now memory.old memory.new result }
{
    let size = memory.len();
    let length = image.len();
    if !is_image(length) {
        return Err(Refusal::Image);
    }
    if !fits_image(size, length) {
        return Err(Refusal::Memory);
    }
    let e = last_end(size);
    if !header_right(image, e) {
        header_fault(image, e)?;
    }
    let tag = reading::load(image, memory);
    Ok(Outcome { length: 0, tag })
}

// "saving checks 4, 1, 3"
#[tactic(auto, using(crate::proofs::Lent::blocks_by_end), unfolding(tag::specs::Host::save_given))]
pub fn save(t: Tag, memory: &[u8], image: &mut [u8]) -> Result<Outcome, Refusal>
    ensures { SaveGives t memory.now image.old image.new result }
{
    let size = memory.len();
    if !is_image(image.len()) {
        return Err(Refusal::Image);
    }
    if !fits_image(size, image.len()) {
        return Err(Refusal::Memory);
    }
    if !is_sound(last_end(size), t) {
        return Err(Refusal::Record);
    }
    let length = writing::save(t, memory, image);
    Ok(Outcome { length, tag: t })
}

// "A factory tag has zero memory, passwords, locks, AFI, DSFID and RFAiSS, and all ends at E." The size is that of the memory lent. Of t
// nothing is looked at: where the memory is not 2,048 or 8,192 bytes, which is number 1, it stays the caller's record.
#[tactic(auto, using(crate::proofs::Lent::blocks_by_end), unfolding(tag::specs::Host::factory_given))]
pub fn factory(t: Tag, uid: u64, memory: &mut [u8]) -> Result<Outcome, Refusal>
    ensures { FactoryGives t uid memory.old memory.new result }
{
    let size = memory.len();
    if !is_memory(size) {
        return Err(Refusal::Memory);
    }
    put::fill(memory, 0);
    let tag = reading::factory(last_end(size), uid);
    Ok(Outcome { length: 0, tag })
}
