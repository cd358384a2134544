// Checks 2 to 6 of a frame, by their numbers in document 01. Each says whether the frame fails it.
ghost use Rattle.std.specs.Prelude.{◌≡◌};
ghost use Rattle.tag.specs.Frame.{other_uid, select_of_another, check2, check3, check4, check5, check6};

use super::places::{ADDRESS, Frame, INVENTORY, OPTION, SELECT, is_custom};
use crc::crc;
use put::{byte_at, number2, number8};
use record::{Front, State};

// "Under 4 bytes, or wrong CRC: silence."
#[tactic(auto, unfolding(tag::specs::Frame::check2))]
pub fn check2(frame: &Frame<'_>) -> bool
    ensures { result ≡ check2 frame.now }
{
    if frame.bytes.len() < 4 {
        return true;
    }
    let (covered, sum) = frame.bytes.split_at(frame.end());
    crc(covered) != number2(sum, 0)
}

// "Flag bit 4 or bit 8 set (counting from 1): silence."
#[tactic(auto, unfolding(tag::specs::Frame::check3))]
pub fn check3(frame: &Frame<'_>) -> bool
    ensures { result ≡ check3 frame.now }
{
    frame.flag(4) || frame.flag(8)
}

// "Inventory_flag (bit 3) set and code not 01h, or clear and code 01h: silence."
#[tactic(auto, unfolding(tag::specs::Frame::check4))]
pub fn check4(frame: &Frame<'_>) -> bool
    ensures { result ≡ check4 frame.now }
{
    frame.flag(INVENTORY) != (frame.code() == 0x01)
}

// "Codes A0h to DFh carry manufacturer code 02h after the code; another or none: silence."
#[tactic(auto, unfolding(tag::specs::Frame::check5))]
pub fn check5(frame: &Frame<'_>) -> bool
    ensures { result ≡ check5 frame.now }
{
    is_custom(frame.code()) && !(2 < frame.end() && byte_at(frame.bytes, 2) == 0x02)
}

// "UID missing or not ours"
#[tactic(auto, using(crate::proofs::Bytes::number_here), unfolding(tag::specs::Frame::other_uid))]
fn other_uid(front: Front, frame: &Frame<'_>) -> bool
    ensures { result ≡ other_uid front frame.now }
{
    frame.end() < frame.fields_at() || number8(frame.bytes, frame.after_code()) != front.uid
}

// "Select_flag (bit 5) and Address_flag (bit 6) both set: silence. Addressed: UID missing or not ours is silence .. Select only: silence
// unless Selected. Neither: silence in Quiet."
#[tactic(auto, unfolding(tag::specs::Frame::check6))]
pub fn check6(front: Front, frame: &Frame<'_>) -> bool
    ensures { result ≡ check6 front frame.now }
{
    match (frame.flag(SELECT), frame.flag(ADDRESS)) {
        (true, true) => true,
        (false, true) => other_uid(front, frame),
        (true, false) => front.state != State::Selected,
        (false, false) => front.state == State::Quiet,
    }
}

// "but a Select of another UID, of the right length and without Option_flag, turns Selected into Ready"
#[tactic(auto, unfolding(tag::specs::Frame::select_of_another))]
pub fn select_of_another(front: Front, frame: &Frame<'_>) -> bool
    ensures { result ≡ select_of_another front frame.now }
{
    let select = frame.code() == 0x25 && frame.end() == 10;
    let addressed = frame.flag(ADDRESS) && !frame.flag(SELECT);
    select && addressed && !frame.flag(OPTION) && front.state == State::Selected
}
