// From record and memory to an image.
ghost use Rattle.std.specs.Prelude.{◌≡◌, ◌∷◌, ◌+◌, ◌≤◌, length};
ghost use Rattle.put.specs.Put.{Put};
ghost use Rattle.put.specs.Number.{bytes_of};
ghost use Rattle.rights.specs.Registers.{registers_of};
ghost use Rattle.tag.specs.Image.{mark_of, lock_byte, password_bytes, header_of, image_of};

use super::rules::mark;
use put::{copy, copy_all, put_number};
use record::Tag;

// "11 locks (bits 0, 1 blocks 0, 1; bit 2 AFI; bit 3 DSFID; bit 4 LOCK_CFG; others 0)"
#[tactic(auto, using(crate::proofs::Locks::bit_byte))]
fn lock_byte(t: Tag) -> u8
    ensures { result ≡ lock_byte t }
{
    let Tag { front, vault } = t;
    u8::from(vault.lock0)
        + 2 * u8::from(vault.lock1)
        + 4 * u8::from(front.lockafi)
        + 8 * u8::from(front.lockdsfid)
        + 16 * u8::from(vault.lockcfg)
}

// "19 to 50 passwords 0 to 3"
fn write_passwords(passwords: [u64; 4], out: &mut [u8])
    requires { 32 ≤ length out.old }
    ensures { Put (password_bytes passwords) out.old out.new 32 }
{
    for (n, password) in passwords.iter().enumerate() {
        put_number(*password, 8, &mut out[8 * n..]);
    }
}

// "Saving writes lasting parts only"
pub fn write_header(t: Tag, size: usize, image: &mut [u8]) -> usize
    requires { 64 ≤ length image.old }
    ensures { Put (header_of size t) image.old image.new result }
{
    let Tag { front, vault } = t;
    let areas = vault.areas;
    // "9 AFI; 10 DSFID; 11 locks .. 12 to 18 RFA1SS, ENDA1, RFA2SS, ENDA2, RFA3SS, ENDA3, RFA4SS"
    let bytes = [
        front.afi,
        front.dsfid,
        lock_byte(t),
        areas.rfa1ss,
        areas.enda1,
        areas.rfa2ss,
        areas.enda2,
        areas.rfa3ss,
        areas.enda3,
        areas.rfa4ss,
    ];
    image[0] = mark(size);
    put_number(front.uid, 8, &mut image[1..]);
    copy(&bytes, &mut image[9..]);
    write_passwords(vault.keys.passwords, &mut image[19..]);
    copy(&[0; 13], &mut image[51..]); // "51 to 63 zero"
    64
}

// "saving fills the image and returns its length"
pub fn save(t: Tag, memory: &[u8], image: &mut [u8]) -> usize
    requires { length image.old ≡ 64 + length memory.now }
    ensures { (result ≡ 64 + length memory.now) × (image.new ≡ image_of t memory.now) }
{
    write_header(t, memory.len(), image);
    copy_all(memory, &mut image[64..]);
    image.len()
}
