// "Record rules", each a function of its own, joined in `is_sound`.
ghost use Rattle.std.specs.Prelude.{◌≡◌, ◌+◌, ◌*◌};
ghost use Rattle.tag.specs.Rules.{off_rule, round_rule, is_code, held_rule, together_rule, sound};

use record::{Front, Round, State, Tag};
use rights::registers::possible_areas;
use rights::{Session, Verdict};

// "With the field off nothing passing is set and the state is Ready."
#[tactic(auto, unfolding(tag::specs::Rules::off_rule))]
fn off_rule(f: Front, s: Option<Session>) -> bool
    ensures { result ≡ off_rule f s }
{
    f.field || (f.state == State::Ready && s.is_none() && f.round.is_none() && f.held.is_none())
}

// "A round has slot 0 to 15 and mask length at most 60"
#[tactic(auto, unfolding(tag::specs::Rules::round_rule))]
fn round_rule(round: Option<Round>) -> bool
    ensures { result ≡ round_rule round }
{
    round.is_none_or(|r| r.slot <= 15 && r.mask <= 60)
}

// The error codes of document 01.
#[tactic(auto, unfolding(tag::specs::Rules::is_code))]
pub fn is_code(c: u8) -> bool
    ensures { result ≡ is_code c }
{
    matches!(c, 0x02 | 0x03 | 0x0F..=0x15)
}

// "a held answer is success or one error code of this page"
#[tactic(auto, unfolding(tag::specs::Rules::held_rule))]
fn held_rule(held: Option<Verdict>) -> bool
    ensures { result ≡ held_rule held }
{
    match held {
        Some(Err(c)) => is_code(c),
        Some(Ok(())) | None => true,
    }
}

// "A round never stands with a held answer nor in Quiet."
#[tactic(auto, unfolding(tag::specs::Rules::together_rule))]
fn together_rule(f: Front) -> bool
    ensures { result ≡ together_rule f }
{
    f.round.is_none() || (f.held.is_none() && f.state != State::Quiet)
}

// All record rules, for a memory whose last end is e.
#[tactic(auto, using(image::proofs::Ends::last_end_lem), unfolding(tag::specs::Rules::sound))]
pub fn is_sound(e: u8, t: Tag) -> bool
    ensures { result ≡ sound (8 * (e + 1)) t }
{
    possible_areas(e, t.vault.areas)
        && off_rule(t.front, t.vault.keys.session)
        && round_rule(t.front.round)
        && held_rule(t.front.held)
        && together_rule(t.front)
}
