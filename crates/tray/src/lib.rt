// Finding every tag on a tray (W-201): the search that a reader makes, over tags that are given by their UIDs and are all Ready. specs/Tray.antt says
// what it finds and sends, specs/Tags.antt what the tags of document 01 say to it. Quoted words are document 02's.
#![tactic(auto)]

ghost use Rattle.std.specs.List.{list_any};
ghost use Rattle.std.specs.Prelude.{IfSome, ◌==◌, ◌≡◌, ℕ, ◌<◌, ◌≤◌, ◌+◌, ◌*◌, ◌%◌, ◌^◌, find, length};
ghost use Rattle.std.specs.Result.{result_err};
ghost use Rattle.tag.specs.Host.{number_of};
ghost use Rattle.tag.specs.Inventory.{next_four, fits};
ghost use Rattle.tray.specs.Tray.{speaks_in, those, longer, any_equal, given, requests_in, search_given};
ghost use Rattle.tray.specs.Steps.{slot_in, Counted, Listened, Asks, Asked, AsksSlot, AskedSlot};

use record::Refusal;

// "The search asks with 16 slots"
const SLOTS: usize = 16;

// How many UIDs were written to the start of the room that was lent, and how many requests were sent. The list is the caller's room, and the count goes
// beside it, since nothing here may use a heap.
#[derive(Clone, Copy)]
struct Found {
    count: usize,
    requests: u32,
}

// The mask of a request: a number of so many bits. Document 01: 16 slots, "at most 60".
#[derive(Clone, Copy)]
struct Mask {
    value: u64,
    bits: u32,
    ghost short: { bits ≤ 60 },
    ghost groups: { bits % 4 ≡ 0 },
    ghost low: { value < 2 ^ bits },
}

impl Mask {
    // The slot in which a UID answers, if it does. Document 01: "The lowest mask-length bits of the UID must match", "the next four UID bits are the
    // slot"
    fn slot_of(self, uid: u64) -> Option<usize>
        ensures value { result ≡ slot_in self.value self.bits uid }
        ensures below { IfSome result (λ slot. slot < 16) }
    {
        if uid % (1 << self.bits) == self.value {
            Some((uid >> self.bits) as usize % SLOTS)
        } else {
            None
        }
    }
}

// One slot of the request with a mask.
#[derive(Clone, Copy)]
struct Slot {
    mask: Mask,
    number: usize,
    ghost below: { number < 16 },
}

impl Slot {
    // Whether a UID answers in it: whether its lowest bits are the mask and, above it, the slot's four bits. `mask.slot_of(uid) == Some(number)` was
    // tried: a search of UIDs in a row then takes 3.3 times plain C's instructions, and the bar is 2.5.
    fn hears(self, uid: u64) -> bool
        ensures { result ≡ speaks_in self.mask.value self.mask.bits self.number uid }
    {
        let compared = u64::MAX >> (60 - self.mask.bits);
        uid & compared == ((self.number as u64) << self.mask.bits) + self.mask.value
    }

    // ".. the mask longer by that slot's four bits"
    fn longer(self) -> Mask
        requires { self.mask.bits ≤ 56 }
        ensures value { result.value ≡ longer self.mask.value self.mask.bits self.number }
        ensures bits { result.bits ≡ self.mask.bits + 4 }
    {
        Mask {
            value: ((self.number as u64) << self.mask.bits) + self.mask.value,
            bits: self.mask.bits + 4,
        }
    }
}

// The answers to a request, counted in one number, so that a search keeps nothing beside the list: a slot's in the four bits that have its number.
#[derive(Clone, Copy)]
struct Tally {
    counts: u64,
}

impl Tally {
    // How many answer in a slot: up to 15 are counted.
    fn answers_in(self, slot: usize) -> u64
        requires { slot < 16 }
        ensures { result ≡ next_four self.counts (4 * slot) }
    {
        (self.counts >> (4 * slot)) % 16
    }

    // One more in a slot. Four bits hold no more than 15: a sixteenth would run over into the next slot's.
    fn one_more(self, slot: usize) -> Tally
        requires { slot < 16 }
        ensures { Counted self.counts slot result.counts }
    {
        if self.answers_in(slot) == 15 {
            return self;
        }
        Tally {
            counts: self.counts + (1 << (4 * slot)),
        }
    }
}

// A tray that is searched: "up to 256 simulated tags", by their UIDs, of which no two are equal.
#[derive(Drop)]
struct Tray<'a> {
    uids: &'a [u64],
    ghost few: { length uids.now ≤ 256 },
    ghost differ: { (mask : ℕ) → length (those (fits mask 64) uids.now) < 2 },
}

impl Tray<'_> {
    // Each tag hears a request once: how many answer in each slot.
    fn listen(&self, mask: Mask) -> Tally
        ensures { Listened self.now.uids.now mask.value mask.bits result.counts }
    {
        let mut tally = Tally { counts: 0 };
        for &uid in self.uids {
            if let Some(slot) = mask.slot_of(uid) {
                tally = tally.one_more(slot);
            }
        }
        tally
    }

    // The first tag that answers in a slot.
    fn first_in(&self, slot: Slot) -> Option<u64>
        ensures { result ≡ find (speaks_in slot.mask.value slot.mask.bits slot.number) self.now.uids.now }
    {
        self.uids.iter().copied().find(|&uid| slot.hears(uid))
    }

    // "The search asks with 16 slots": one request, and those that follow from it, slot after slot.
    #[cycle(ask_in_slot)]
    fn ask(&self, out: &mut [u64], mask: Mask) -> Found
        requires { Asks self.now.uids.now mask.value mask.bits out.old }
        ensures { Asked self.now.uids.now mask.value mask.bits out.old out.new result.count result.requests }
    {
        let mut found = Found {
            count: 0,
            requests: 1,
        };
        let tally = self.listen(mask);
        for number in 0..SLOTS {
            let more = self.in_slot(&mut out[found.count..], Slot { mask, number }, tally);
            found.count += more.count;
            found.requests += more.requests;
        }
        found
    }

    // One slot of a request, with the answers to it counted: "a slot with two or more answers is a collision, and the search goes again with the mask
    // longer by that slot's four bits".
    #[cycle(ask_in_slot)]
    fn in_slot(&self, out: &mut [u64], slot: Slot, tally: Tally) -> Found
        requires { AsksSlot self.now.uids.now slot.mask.value slot.mask.bits slot.number tally.counts out.old }
        ensures { AskedSlot self.now.uids.now slot.mask.value slot.mask.bits slot.number out.old out.new result.count result.requests }
    {
        let answers = tally.answers_in(slot.number);
        match answers {
            0 => Found {
                count: 0,
                requests: 0,
            },
            1 => {
                out[0] = self.first_in(slot).unwrap();
                Found {
                    count: 1,
                    requests: 0,
                }
            }
            _ => self.ask(out, slot.longer()),
        }
    }
}

// Whether a UID is one of these. `contains` and `any` were tried: for 16 tags and no room they take 1.26 and 1.21 times plain C's instructions, and the
// bar is 1.1.
fn is_in(uid: u64, uids: &[u64]) -> bool
    ensures { result ≡ list_any (λ v. uid == v) uids.now }
{
    for other in uids {
        if uid == *other {
            return true;
        }
    }
    false
}

// "7 if two UIDs are equal"
fn any_equal(uids: &[u64]) -> bool
    ensures { result ≡ any_equal uids.now }
{
    for (i, uid) in uids.iter().enumerate() {
        if is_in(*uid, &uids[i + 1..]) {
            return true;
        }
    }
    false
}

// The search: "list each UID once, in ascending order of the UID's four-bit groups taken from the lowest", where the list stands. "6 for more than 256
// tags" comes before any UID is read. "The result gives the number of Inventory requests sent".
pub fn search(uids: &[u64], list: &mut [u64]) -> Result<u32, Refusal>
    ensures { given (number_of (result_err result)) (requests_in result) list.new ≡ search_given uids.now list.old }
{
    if 256 < uids.len() {
        return Err(Refusal::Tags);
    }
    if any_equal(uids) {
        return Err(Refusal::Equal);
    }
    if list.len() < uids.len() {
        return Err(Refusal::Small);
    }
    let tray = Tray { uids };
    let found = tray.ask(list, Mask { value: 0, bits: 0 });
    Ok(found.requests)
}
