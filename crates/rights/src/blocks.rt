// Areas: which one a block is in, and what its register lets the open session do there.
ghost use Rattle.std.specs.Prelude.{◌≡◌, ◌+◌};
ghost use Rattle.rights.specs.Blocks.{area_of, register_of, serves, readable_at, writable_at, locked_at, barred_at, status_at, crosses_at, any_barred};

use super::passwords::is_open;
use super::{Areas, Session, View};

// The number of the area, 1 to 4: the documents number areas, and so do the definitions.
#[tactic(auto, unfolding(crate::specs::Blocks::area_of))]
fn area(a: Areas, block: usize) -> u8
    ensures { result ≡ area_of a block }
{
    if block <= 8 * (a.enda1 as usize) + 7 {
        return 1;
    }
    if block <= 8 * (a.enda2 as usize) + 7 {
        return 2;
    }
    if block <= 8 * (a.enda3 as usize) + 7 {
        return 3;
    }
    4
}

#[tactic(auto, unfolding(crate::specs::Blocks::register_of))]
fn register(a: Areas, area: u8) -> u8
    ensures { result ≡ register_of a area }
{
    match area {
        1 => a.rfa1ss,
        2 => a.rfa2ss,
        3 => a.rfa3ss,
        _ => a.rfa4ss,
    }
}

// "With password bits 00 no session serves."
#[tactic(auto, unfolding(crate::specs::Blocks::serves))]
fn in_session(s: Option<Session>, named: u8) -> bool
    ensures { result ≡ serves s named }
{
    named != 0 && is_open(s, named)
}

#[tactic(auto, unfolding(crate::specs::Blocks::readable_at, crate::specs::Blocks::may_read))]
pub fn readable(v: View, block: usize) -> bool
    ensures { result ≡ readable_at v block }
{
    let i = area(v.areas, block);
    let f = register(v.areas, i);
    i == 1 || f / 4 % 4 < 2 || in_session(v.session, f % 4)
}

#[tactic(auto, unfolding(crate::specs::Blocks::writable_at, crate::specs::Blocks::may_write))]
pub fn writable(v: View, block: usize) -> bool
    ensures { result ≡ writable_at v block }
{
    let f = register(v.areas, area(v.areas, block));
    match f / 4 % 4 {
        0 => true,
        3 => false,
        _ => in_session(v.session, f % 4),
    }
}

#[tactic(auto, unfolding(crate::specs::Blocks::locked_at))]
pub fn locked(v: View, block: usize) -> bool
    ensures { result ≡ locked_at v block }
{
    match block {
        0 => v.lock0,
        1 => v.lock1,
        _ => false,
    }
}

// "locked or not writable now"
#[tactic(auto, unfolding(crate::specs::Blocks::barred_at))]
pub fn barred(v: View, block: usize) -> bool
    ensures { result ≡ barred_at v block }
{
    locked(v, block) || !writable(v, block)
}

#[tactic(auto, unfolding(crate::specs::Blocks::status_at))]
pub fn status(v: View, block: usize) -> u8
    ensures { result ≡ status_at v block }
{
    u8::from(barred(v, block))
}

// Whether the run from first, with so many blocks more, crosses an area border.
#[tactic(auto, unfolding(crate::specs::Blocks::crosses_at))]
pub fn crosses(a: Areas, first: u16, more: u16) -> bool
    ensures { result ≡ crosses_at a first more }
{
    let b = first as usize;
    area(a, b) != area(a, b + (more as usize))
}

// Whether any of the blocks from first on, count of them, is barred. Counted from 0, so that for a write, of four at most, a compiler makes no loop.
pub fn any_barred(v: View, first: u16, count: u16) -> bool
    ensures { result ≡ any_barred v first count }
{
    (0..count).any(|n| barred(v, first as usize + n as usize))
}
