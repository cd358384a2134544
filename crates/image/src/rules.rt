// The rules of an image's header.
ghost use Rattle.std.specs.Prelude.{◌≡◌, ◌+◌, ◌*◌, ◌≤◌, length};
ghost use Rattle.std.specs.Result.{result_err};
ghost use Rattle.tag.specs.Image.{mark_of, mark_rule, lock_rule, reserved_rule, header_rule};
ghost use Rattle.tag.specs.Fault.{reserved_fault, header_fault};
ghost use Rattle.tag.specs.Host.{fault_of};

use super::reading::read_areas;
use put::{byte_of, eight_of};
use record::Refusal;
use rights::registers::{end_rules, possible_areas};

// "Byte 0: 1 for 16 Kbit, 2 for 64 Kbit", of a memory of so many bytes
pub fn mark(size: usize) -> u8
    ensures { result ≡ mark_of size }
{
    if size == 2048 { 1 } else { 2 }
}

// 5: ".. or byte 0 does not fit the image's length"
#[tactic(auto, unfolding(tag::specs::Image::mark_rule))]
fn mark_right(image: &[u8]) -> bool
    requires { 64 ≤ length image.now }
    ensures { result ≡ mark_rule image.now }
{
    byte_of(image, 0) == mark(image.len() - 64)
}

// byte 11, the bits that are no lock: "others 0"
#[tactic(auto, unfolding(tag::specs::Image::lock_rule))]
pub fn locks_right(image: &[u8]) -> bool
    requires { 64 ≤ length image.now }
    ensures { result ≡ lock_rule image.now }
{
    byte_of(image, 11) <= 0x1F
}

// "51 to 63 zero", by two loads, of bytes 51 to 58 and 56 to 63: `all` over the 13 bytes takes 50 instructions and this 28, for each event.
#[tactic(auto, using(crate::proofs::Zeros::two_numbers))]
pub fn reserved_right(image: &[u8]) -> bool
    requires { 64 ≤ length image.now }
    ensures { result ≡ reserved_rule image.now }
{
    (eight_of(image, 51) == 0) & (eight_of(image, 56) == 0)
}

// All rules of the header, for a tag whose last end is e: it has 8 × (e + 1) blocks.
#[tactic(auto, using(crate::proofs::Ends::last_end_lem), unfolding(tag::specs::Image::header_rule))]
pub fn header_right(image: &[u8], e: u8) -> bool
    requires { 64 ≤ length image.now }
    ensures { result ≡ header_rule (8 * (e + 1)) image.now }
{
    mark_right(image)
        && locks_right(image)
        && possible_areas(e, read_areas(image))
        && reserved_right(image)
}

// 02: "5e reserved byte": the first that is not zero
#[tactic(auto, using(crate::proofs::Reserved::at_fault, crate::proofs::Reserved::after_zero, crate::proofs::Reserved::none_left))]
fn reserved_fault(image: &[u8]) -> Result<(), Refusal>
    requires { 64 ≤ length image.now }
    ensures { fault_of (result_err result) ≡ reserved_fault 13 image.now 51 }
{
    for at in 51..64 {
        if byte_of(image, usize::from(at)) != 0 {
            return Err(Refusal::Reserved(at));
        }
    }
    Ok(())
}

// The first fault of a header, in the order of its bytes, for the same tag. 02: "An end above E is charged to its own byte, a wrong pair to the
// later byte."
#[tactic(auto, using(crate::proofs::Ends::last_end_lem), unfolding(tag::specs::Fault::header_fault, tag::specs::Fault::first_fault))]
pub fn header_fault(image: &[u8], e: u8) -> Result<(), Refusal>
    requires { 64 ≤ length image.now }
    ensures { fault_of (result_err result) ≡ header_fault (8 * (e + 1)) image.now }
{
    let a = read_areas(image);
    if !mark_right(image) {
        return Err(Refusal::Mark(0));
    }
    if !locks_right(image) {
        return Err(Refusal::Lock(11));
    }
    if 0x0F < a.rfa1ss {
        return Err(Refusal::Protection(12));
    }
    if e < a.enda1 {
        return Err(Refusal::End(13));
    }
    if 0x0F < a.rfa2ss {
        return Err(Refusal::Protection(14));
    }
    if !end_rules(e, a.enda1, a.enda2) {
        return Err(Refusal::End(15));
    }
    if 0x0F < a.rfa3ss {
        return Err(Refusal::Protection(16));
    }
    if !end_rules(e, a.enda2, a.enda3) {
        return Err(Refusal::End(17));
    }
    if 0x0F < a.rfa4ss {
        return Err(Refusal::Protection(18));
    }
    reserved_fault(image)
}
