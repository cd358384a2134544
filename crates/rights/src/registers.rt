// Registers by their addresses (003, Table 10).
ghost use Rattle.std.specs.Prelude.{◌≡◌, ◌&&◌, ◌≤◌, MatchResult, Ok, Err};
ghost use Rattle.rights.specs.Vault.{view_of};
ghost use Rattle.rights.specs.Verdict.{granting};
ghost use Rattle.rights.specs.Registers.{Addresses, address_of, register_at, allows, permits, register_verdict, with_register, end_rule, pair_rule, possible};

use super::passwords::is_open;
use super::{Areas, Vault, View};

// "Registers: the seven above and LOCK_CFG."
#[derive(Clone, Copy, Debug, PartialEq, Eq)]
pub enum Register {
    Rfa1ss,
    Enda1,
    Rfa2ss,
    Enda2,
    Rfa3ss,
    Enda3,
    Rfa4ss,
    LockCfg,
}

// An address that no register has
#[derive(Clone, Copy, Debug, PartialEq, Eq)]
pub struct UnknownRegister(pub u8);

// The register at an address
impl TryFrom<u8> for Register {
    type Error = UnknownRegister;

    ghost try_from_gives = { Addresses };

    #[tactic(auto, unfolding(crate::specs::Registers::is_register))]
    fn try_from(address: u8) -> Result<Register, UnknownRegister> {
        match address {
            0x04 => Ok(Register::Rfa1ss),
            0x05 => Ok(Register::Enda1),
            0x06 => Ok(Register::Rfa2ss),
            0x07 => Ok(Register::Enda2),
            0x08 => Ok(Register::Rfa3ss),
            0x09 => Ok(Register::Enda3),
            0x0A => Ok(Register::Rfa4ss),
            0x0F => Ok(Register::LockCfg),
            _ => Err(UnknownRegister(address)),
        }
    }
}

// "Unknown 10h"
impl From<UnknownRegister> for u8 {
    ghost from_gives = { λ _ code. code ≡ 0x10 };

    fn from(_unknown: UnknownRegister) -> u8 {
        0x10
    }
}

#[tactic(auto, using(crate::proofs::Addresses::none_read), unfolding(crate::specs::Registers::register_at))]
pub fn read_register(v: View, address: u8) -> Result<u8, u8>
    ensures { result ≡ register_at v address }
{
    let a = v.areas;
    let register = Register::try_from(address)?;
    Ok(match register {
        Register::Rfa1ss => a.rfa1ss,
        Register::Enda1 => a.enda1,
        Register::Rfa2ss => a.rfa2ss,
        Register::Enda2 => a.enda2,
        Register::Rfa3ss => a.rfa3ss,
        Register::Enda3 => a.enda3,
        Register::Rfa4ss => a.rfa4ss,
        Register::LockCfg => u8::from(v.lockcfg),
    })
}

#[tactic(auto, unfolding(crate::specs::Registers::allows))]
fn allowed(e: u8, a: Areas, register: Register, value: u8) -> bool
    ensures { result ≡ allows e a (address_of register) value }
{
    match register {
        Register::Enda1 => value <= e && a.enda2 == e && a.enda3 == e,
        Register::Enda2 => value <= e && a.enda1 < value && a.enda3 == e,
        Register::Enda3 => value <= e && a.enda2 < value,
        Register::LockCfg => value <= 0x01,
        _ => value <= 0x0F,
    }
}

#[tactic(auto, unfolding(crate::specs::Registers::permits))]
fn permitted(v: View) -> bool
    ensures { result ≡ permits v }
{
    is_open(v.session, 0) && !v.lockcfg
}

// The register of an address that a value may be written to
#[tactic(auto, unfolding(crate::specs::Registers::register_verdict))]
fn granted_register(e: u8, v: View, address: u8, value: u8) -> Result<Register, u8>
    ensures { MatchResult result (λ register. (address ≡ address_of register) × (register_verdict e v address value ≡ Ok tt))
        (λ code. register_verdict e v address value ≡ Err code) }
{
    let register = Register::try_from(address)?;
    if !permitted(v) {
        return Err(0x0F);
    }
    if !allowed(e, v.areas, register, value) {
        return Err(0x13);
    }
    Ok(register)
}

#[tactic(auto, unfolding(crate::specs::Registers::with_register))]
fn set_register(mut v: Vault, register: Register, value: u8) -> Vault
    ensures { result ≡ with_register v (address_of register) value }
{
    match register {
        Register::Rfa1ss => v.areas.rfa1ss = value,
        Register::Enda1 => v.areas.enda1 = value,
        Register::Rfa2ss => v.areas.rfa2ss = value,
        Register::Enda2 => v.areas.enda2 = value,
        Register::Rfa3ss => v.areas.rfa3ss = value,
        Register::Enda3 => v.areas.enda3 = value,
        Register::Rfa4ss => v.areas.rfa4ss = value,
        Register::LockCfg => v.lockcfg = value == 0x01,
    }
    v
}

// A write of a register, of a tag whose last end is e: the vault after it, where it is not refused
pub fn write_register(e: u8, v: Vault, address: u8, value: u8) -> Result<Vault, u8>
    ensures { result ≡ granting (register_verdict e (view_of v) address value) (with_register v address value) }
{
    let register = granted_register(e, super::seen(v), address, value)?;
    Ok(set_register(v, register, value))
}

// "each ENDAi is at most E; if ENDAi is below E then ENDA(i+1) is above ENDAi; if ENDAi is E then all later ends are E". Each test leads to
// its own answer, so that a compiler makes a jump of it and keeps no truth values.
pub fn end_rules(e: u8, x: u8, y: u8) -> bool
    ensures { result ≡ (end_rule e y && pair_rule e x y) }
{
    if e < y {
        return false;
    }
    if x < e {
        return x < y;
    }
    !(x == e) | (y == e)
}

// The record rules for registers and ends, of a tag whose last end is e.
#[tactic(auto, unfolding(crate::specs::Registers::possible))]
pub fn possible_areas(e: u8, a: Areas) -> bool
    ensures { result ≡ possible e a }
{
    let first = (a.rfa1ss <= 0x0F) & (a.enda1 <= e);
    let second = (a.rfa2ss <= 0x0F) & end_rules(e, a.enda1, a.enda2);
    let third = (a.rfa3ss <= 0x0F) & end_rules(e, a.enda2, a.enda3);
    (first & second) & (third & (a.rfa4ss <= 0x0F))
}
