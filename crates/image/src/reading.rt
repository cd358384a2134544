// From an image to record and memory, and the record of a factory tag.
ghost use Rattle.std.specs.Prelude.{◌≡◌, ◌+◌, ◌≤◌, ◌<◌, length, drop};
ghost use Rattle.tag.specs.Frame.{bit};
ghost use Rattle.tag.specs.Image.{areas_in, tag_in, factory};

use put::{byte_of, copy_all, eight_of};
use record::{Front, State, Tag};
use rights::{Areas, Keys, Vault};

// The front of a factory tag, but for its UID. Its passing parts are those of a loaded tag too: "Loading gives a tag with the field off."
const FRESH: Front = Front {
    uid: 0,
    afi: 0,
    dsfid: 0,
    lockafi: false,
    lockdsfid: false,
    field: false,
    state: State::Ready,
    round: None,
    held: None,
};

// Bit k of a byte, counting from 0.
fn bit(k: u32, byte: u8) -> bool
    requires { k < 8 }
    ensures { result ≡ bit k byte }
{
    (byte >> k) % 2 == 1
}

// "12 to 18 RFA1SS, ENDA1, RFA2SS, ENDA2, RFA3SS, ENDA3, RFA4SS"
pub fn read_areas(image: &[u8]) -> Areas
    requires { 64 ≤ length image.now }
    ensures { result ≡ areas_in image.now }
{
    Areas {
        rfa1ss: byte_of(image, 12),
        enda1: byte_of(image, 13),
        rfa2ss: byte_of(image, 14),
        enda2: byte_of(image, 15),
        rfa3ss: byte_of(image, 16),
        enda3: byte_of(image, 17),
        rfa4ss: byte_of(image, 18),
    }
}

// "1 to 8 UID; 9 AFI; 10 DSFID; 11 locks (bits 0, 1 blocks 0, 1; bit 2 AFI; bit 3 DSFID; bit 4 LOCK_CFG; others 0)"
// "19 to 50 passwords 0 to 3", and no session open
#[tactic(auto, unfolding(tag::specs::Image::tag_in))]
pub fn read_header(image: &[u8]) -> Tag
    requires { 64 ≤ length image.now }
    ensures { result ≡ tag_in image.now }
{
    let locks = byte_of(image, 11);
    let front = Front {
        uid: eight_of(image, 1),
        afi: byte_of(image, 9),
        dsfid: byte_of(image, 10),
        lockafi: bit(2, locks),
        lockdsfid: bit(3, locks),
        ..FRESH
    };
    let keys = Keys {
        // Four calls: a closure that a `map` over the places calls would need two clauses of its own.
        passwords: [
            eight_of(image, 19),
            eight_of(image, 27),
            eight_of(image, 35),
            eight_of(image, 43),
        ],
        session: None,
    };
    let vault = Vault {
        areas: read_areas(image),
        lock0: bit(0, locks),
        lock1: bit(1, locks),
        lockcfg: bit(4, locks),
        keys,
    };
    Tag { front, vault }
}

// "Loading fills the memory and returns the record"
pub fn load(image: &[u8], memory: &mut [u8]) -> Tag
    requires { length image.now ≡ 64 + length memory.old }
    ensures { (result ≡ tag_in image.now) × (memory.new ≡ drop 64 image.now) }
{
    copy_all(&image[64..], memory);
    read_header(image)
}

// "A factory tag has zero memory, passwords, locks, AFI, DSFID and RFAiSS, and all ends at E."
#[tactic(auto, unfolding(tag::specs::Image::factory))]
pub fn factory(e: u8, uid: u64) -> Tag
    ensures { result ≡ factory e uid }
{
    let areas = Areas {
        rfa1ss: 0,
        enda1: e,
        rfa2ss: 0,
        enda2: e,
        rfa3ss: 0,
        enda3: e,
        rfa4ss: 0,
    };
    let keys = Keys {
        passwords: [0; 4],
        session: None,
    };
    let vault = Vault {
        areas,
        lock0: false,
        lock1: false,
        lockcfg: false,
        keys,
    };
    Tag {
        front: Front { uid, ..FRESH },
        vault,
    }
}
