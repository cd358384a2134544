// "Inventory": its fields, and whether the tag hears it.
ghost use Rattle.std.specs.Prelude.{◌≡◌, ◌/◌, ◌%◌, ◌^◌};
ghost use Rattle.tag.specs.Inventory.{one_slot, inventory_fields, mask_at, mask_length, mask_too_long, wrong_length};
ghost use Rattle.tag.specs.Inventory.{afi_matches, afi_fits, mask_fits, slot_of, unheard};

use super::places::Frame;
use put::{byte_at, number8};
use record::{Front, State};

// The flag bits of an Inventory: "AFI if bit 5 is set", "Bit 6 set means 1 slot"
const AFI: u8 = 5;

const ONE_SLOT: u8 = 6;

// "Bit 6 set means 1 slot"
pub fn one_slot(frame: &[u8]) -> bool
    ensures { result ≡ one_slot frame.now }
{
    Frame { bytes: frame }.flag(ONE_SLOT)
}

// The mask length, 0 where it is missing.
pub fn mask_length(frame: &[u8]) -> u8
    ensures { result ≡ mask_length frame.now }
{
    Frame { bytes: frame }.mask_length()
}

impl Frame<'_> {
    // The fields: "AFI if bit 5 is set, mask length, then mask bytes"
    fn inventory_fields(&self) -> &[u8]
        ensures { result.now ≡ inventory_fields self.now }
    {
        self.bytes.get(2..self.end()).unwrap_or_default()
    }

    // The mask length's place.
    fn mask_at(&self) -> u8
        ensures { result ≡ mask_at self.now }
    {
        u8::from(self.flag(AFI))
    }

    // The mask length, 0 where it is missing.
    fn mask_length(&self) -> u8
        ensures { result ≡ mask_length self.now }
    {
        byte_at(self.inventory_fields(), self.mask_at().into())
    }

    // "1 slot, mask length at most 64; clear means 16 slots, at most 60"
    #[tactic(auto, unfolding(tag::specs::Inventory::mask_too_long))]
    fn mask_too_long(&self) -> bool
        ensures { result ≡ mask_too_long self.now }
    {
        let longest = if self.flag(ONE_SLOT) { 64 } else { 60 };
        longest < self.mask_length()
    }

    // the mask bytes: "length over 8, rounded up"
    #[tactic(auto, unfolding(tag::specs::Inventory::wrong_length))]
    fn wrong_length(&self) -> bool
        ensures { result ≡ wrong_length self.now }
    {
        let mask = usize::from(self.mask_at()) + 1;
        self.inventory_fields().len() != mask + usize::from(self.mask_length()).div_ceil(8)
    }

    // "AFI if bit 5 is set"
    #[tactic(auto, unfolding(tag::specs::Inventory::afi_fits))]
    fn afi_fits(&self, front: Front) -> bool
        ensures { result ≡ afi_fits front self.now }
    {
        !self.flag(AFI) || afi_matches(byte_at(self.inventory_fields(), 0), front.afi)
    }

    // "The lowest mask-length bits of the UID must match", "spare bits not compared"
    #[tactic(auto, unfolding(tag::specs::Inventory::mask_fits, tag::specs::Inventory::fits))]
    fn mask_fits(&self, front: Front) -> bool
        ensures { result ≡ mask_fits front self.now }
    {
        let count = self.mask_length();
        let mask = number8(self.inventory_fields(), self.mask_at() + 1);
        low_bits(front.uid, count) == low_bits(mask, count)
    }
}

// 02: "ISO/IEC 15693-3 lets a request of X0h, with X not 0, match every stored AFI whose upper half is X. 00h still matches all, and 0Yh only
// itself." Of every other request 01: "Request AFI matches if it is 00h or equals the stored AFI."
#[tactic(auto, unfolding(tag::specs::Inventory::afi_matches))]
fn afi_matches(asked: u8, stored: u8) -> bool
    ensures { result ≡ afi_matches asked stored }
{
    if asked / 16 != 0 && asked % 16 == 0 {
        return stored / 16 == asked / 16;
    }
    asked == 0x00 || asked == stored
}

// The lowest bits of a number, so many.
#[tactic(auto, using(put::proofs::Bits::all_low))]
fn low_bits(n: u64, count: u8) -> u64
    ensures { result ≡ n % 2 ^ count }
{
    match 1u64.checked_shl(count.into()) {
        Some(above) => n % above,
        None => n,
    }
}

// The bits above them.
#[tactic(auto, using(put::proofs::Bits::none_high))]
fn high_bits(n: u64, count: u8) -> u64
    ensures { result ≡ n / 2 ^ count }
{
    n.checked_shr(count.into()).unwrap_or(0)
}

// "the next four UID bits are the slot", after so many bits of mask
#[tactic(auto, unfolding(tag::specs::Inventory::slot_of))]
pub fn own_slot(front: Front, mask: u8) -> u8
    ensures { result ≡ slot_of front mask }
{
    (high_bits(front.uid, mask) % 16) as u8
}

// "Longer, or wrong frame length: silence. Quiet: silence." "Where either differs: silence"
#[tactic(auto, unfolding(tag::specs::Inventory::unheard))]
pub fn unheard_inventory(front: Front, frame: &[u8]) -> bool
    ensures { result ≡ unheard front frame.now }
{
    let frame = Frame { bytes: frame };
    let badly_made = frame.mask_too_long() || frame.wrong_length();
    let fits = frame.afi_fits(front) && frame.mask_fits(front);
    badly_made || front.state == State::Quiet || !fits
}
