// Where things stand in a frame: flags, code, manufacturer code, UID, fields, CRC.
ghost use Rattle.std.specs.Prelude.{◌≡◌, ◌≤◌, List, ℕ};
ghost use Rattle.tag.specs.Frame.{flag_bit, code_of, end_of, custom, after_code, fields_at};

use put::byte_at;
use std::marker::Model;

// The bits, "counting from 1", of Inventory_flag, Select_flag, Address_flag and Option_flag
pub const INVENTORY: u8 = 3;

pub const SELECT: u8 = 5;

pub const ADDRESS: u8 = 6;

pub const OPTION: u8 = 7;

// "Codes A0h to DFh carry manufacturer code"
#[tactic(auto, unfolding(tag::specs::Frame::custom))]
pub fn is_custom(code: u8) -> bool
    ensures { result ≡ custom code }
{
    matches!(code, 0xA0..=0xDF)
}

// The bytes that came as a frame, of any number.
#[derive(Drop)]
pub struct Frame<'a> {
    pub bytes: &'a [u8],
}

impl<'a> Model for Frame<'a> {
    ghost Value = { List ℕ };

    ghost view = { λ f. f.bytes.now };
}

impl Frame<'_> {
    // Flag bit k, "counting from 1".
    pub fn flag(&self, k: u8) -> bool
        requires { (1 ≤ k) × (k ≤ 8) }
        ensures { result ≡ flag_bit k self.now }
    {
        (byte_at(self.bytes, 0) >> (k - 1)) % 2 == 1
    }

    // The command code, 0 where it is missing.
    pub fn code(&self) -> u8
        ensures { result ≡ code_of self.now }
    {
        byte_at(self.bytes, 1)
    }

    // Where the CRC begins.
    pub fn end(&self) -> usize
        ensures { result ≡ end_of self.now }
    {
        self.bytes.len().saturating_sub(2)
    }

    // Where the UID of an addressed frame stands, and the fields of another.
    #[tactic(auto, unfolding(tag::specs::Frame::after_code))]
    pub fn after_code(&self) -> u8
        ensures { result ≡ after_code self.now }
    {
        if is_custom(self.code()) { 3 } else { 2 }
    }

    // Where the fields begin.
    #[tactic(auto, unfolding(tag::specs::Frame::fields_at))]
    pub fn fields_at(&self) -> usize
        ensures { result ≡ fields_at self.now }
    {
        let after = usize::from(self.after_code());
        if self.flag(ADDRESS) { after + 8 } else { after }
    }
}
