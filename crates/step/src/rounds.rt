// Inventory and its rounds, and the end of a frame.
ghost use Rattle.std.specs.Prelude.{List, ℕ, Some};
ghost use Rattle.record.specs.Update.{with_round};
ghost use Rattle.tag.specs.Inventory.{in_slot, inventory_of, next_slot};
ghost use Rattle.tag.specs.Work.{says, work};
ghost use Rattle.tag.specs.Step.{performed, round_ends, frame_ends};
ghost use Rattle.step.specs.Gives.{GivesUnsealed};

use super::ROOM;
use super::answers::{put_inventory, settle, silent};
use frame::inventory;
use record::{Outcome, Round, Tag};

// The round goes to a slot: a tag whose slot that is answers.
fn go_to(t: Tag, round: Round, room: &mut [u8; ROOM]) -> Outcome
    ensures { (m : List ℕ) → GivesUnsealed (performed t m (work (with_round t.front (Some round)) (says (in_slot t.front round.slot round.mask))))
        room.old m room.new result }
{
    let front = record::set_round(t.front, Some(round));
    let tag = record::set_front(t, front);
    if inventory::own_slot(front, round.mask) == round.slot {
        return Outcome {
            length: put_inventory(front, room),
            tag,
        };
    }
    silent(tag)
}

// "Inventory goes to its own section."
pub fn take_inventory(t: Tag, frame: &[u8], room: &mut [u8; ROOM]) -> Outcome
    ensures { (m : List ℕ) → GivesUnsealed (performed t m (inventory_of t.front frame.now))
        room.old m room.new result }
{
    if inventory::unheard_inventory(t.front, frame) {
        return silent(t);
    }
    if inventory::one_slot(frame) {
        return Outcome {
            length: put_inventory(t.front, room),
            tag: t,
        };
    }
    let mask = inventory::mask_length(frame);
    go_to(t, Round { slot: 0, mask }, room)
}

// "each end of frame moves one slot on; an end of frame in slot 15 closes the round"
fn move_on(t: Tag, round: Round, room: &mut [u8; ROOM]) -> Outcome
    ensures { (m : List ℕ) → GivesUnsealed (performed t m (next_slot t.front round.slot round.mask)) room.old m room.new result }
{
    if round.slot < 15 {
        let slot = round.slot + 1;
        return go_to(t, Round { slot, ..round }, room);
    }
    let front = record::set_round(t.front, None);
    silent(record::set_front(t, front))
}

// "holds the answer .. until an end of frame gives it out"
pub fn end_frame(t: Tag, room: &mut [u8; ROOM]) -> Outcome
    ensures { (m : List ℕ) → GivesUnsealed (performed t m (frame_ends t.front.held t.front)) room.old m room.new result }
{
    match t.front.held {
        Some(v) => {
            let front = record::set_held(t.front, None);
            settle(false, v, record::set_front(t, front), room)
        }
        None => end_round(t, room),
    }
}

fn end_round(t: Tag, room: &mut [u8; ROOM]) -> Outcome
    ensures { (m : List ℕ) → GivesUnsealed (performed t m (round_ends t.front.round t.front)) room.old m room.new result }
{
    match t.front.round {
        Some(round) => move_on(t, round, room),
        None => silent(t),
    }
}
