// From a frame's bytes to what is heard: "Checks, first match wins", checks 2 to 10 of document 01, asked in 01's order: 2 to 6 one function
// each, 7 to 10, which go by one row of the table, in `asked`. Any bytes are taken, an empty frame too.
#![tactic(auto)]

mod checks; // checks.rt: checks 2 to 6 of a frame
pub mod inventory; // inventory.rt: the fields of Inventory, and whether the tag hears it
mod places; // places.rt: a frame, and where its flags, code, UID, fields and CRC stand
pub mod table; // table.rt: the command table, and the fields of the commands on blocks

ghost use Rattle.std.specs.Prelude.{◌≡◌, ◌≤◌, length};
ghost use Rattle.tag.specs.Frame.{end_of, fields_at, addressed_only, heard_of};
ghost use Rattle.frame.specs.Parts.{asked_of, meant_of};

use checks::{check2, check3, check4, check5, check6, select_of_another};
use places::{ADDRESS, Frame, INVENTORY, OPTION};
use record::Front;
use table::{entry_of, right_length};
use tag::{Command, Heard, OptionRule};

fn addressed_only(command: Command) -> bool
    ensures { result ≡ addressed_only command }
{
    matches!(command, Command::StayQuiet | Command::Select)
}

// Checks 7 to 10, of a frame that is meant for this tag.
#[tactic(auto, unfolding(tag::specs::Frame::check7, tag::specs::Frame::check8, tag::specs::Frame::check9, tag::specs::Frame::check10))]
fn asked(frame: &Frame<'_>) -> Heard
    requires { fields_at frame.now ≤ end_of frame.now }
    ensures { result ≡ asked_of frame.now }
{
    let entry = entry_of(frame.code());
    // 7. "Code not listed below: error 02h."
    if matches!(entry.command, Command::Unlisted) {
        return Heard::Error(0x02);
    }
    let start = frame.fields_at();
    let end = frame.end();
    // 8. "Length not the command's: silence."
    if end - start != right_length(entry, &frame.bytes[start..end]) {
        return Heard::Silence;
    }
    // 9. "Select and Stay Quiet not addressed: silence."
    if addressed_only(entry.command) && !frame.flag(ADDRESS) {
        return Heard::Silence;
    }
    let option = frame.flag(OPTION);
    // 10. "Option_flag (bit 7) on a command that takes none: 03h."
    if option && matches!(entry.option, OptionRule::Refused) {
        return Heard::Error(0x03);
    }
    Heard::Request {
        entry,
        option,
        start,
    }
}

// Checks 5 to 10, of a frame that is no Inventory, and is long enough: without its `requires` each request would be tested again.
#[tactic(auto, using(crate::proofs::Within::within))]
fn meant(front: Front, frame: &Frame<'_>) -> Heard
    requires { 4 ≤ length frame.now }
    ensures { result ≡ meant_of front frame.now }
{
    if check5(frame) {
        return Heard::Silence;
    }
    if check6(front, frame) {
        if select_of_another(front, frame) {
            return Heard::Deselected;
        }
        return Heard::Silence;
    }
    asked(frame)
}

// What is heard of a frame by a tag in the field.
#[tactic(auto, using(crate::proofs::Within::long_enough), unfolding(tag::specs::Frame::heard_of))]
pub fn hear(front: Front, frame: &[u8]) -> Heard
    ensures { result ≡ heard_of front frame.now }
{
    let frame = Frame { bytes: frame };
    if check2(&frame) || check3(&frame) || check4(&frame) {
        return Heard::Silence;
    }
    if frame.flag(INVENTORY) {
        return Heard::Inventory;
    }
    meant(front, &frame)
}
