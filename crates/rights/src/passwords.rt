// Passwords and the session that each opens.
ghost use Rattle.std.specs.Prelude.{◌≡◌};
ghost use Rattle.rights.specs.Verdict.{granting};
ghost use Rattle.rights.specs.Passwords.{Opens, password_number, is_open, present_of, change_verdict, with_password};

use super::{Keys, Session, Verdict};

// What a presentation comes to: the verdict, and the keys after it, which a wrong value changes too
#[derive(Clone, Copy)]
pub struct Presentation {
    pub answer: Verdict,
    pub keys: Keys,
}

// A number of no password: one over 3
#[derive(Clone, Copy, Debug, PartialEq, Eq)]
pub struct UnknownPassword(pub u8);

// The session of a password's number
impl TryFrom<u8> for Session {
    type Error = UnknownPassword;

    ghost try_from_gives = { Opens };

    #[tactic(auto, unfolding(crate::specs::Passwords::session_of))]
    fn try_from(n: u8) -> Result<Session, UnknownPassword> {
        match n {
            0 => Ok(Session::Configuration),
            1 => Ok(Session::User1),
            2 => Ok(Session::User2),
            3 => Ok(Session::User3),
            _ => Err(UnknownPassword(n)),
        }
    }
}

// "number over 3 is 10h"
impl From<UnknownPassword> for u8 {
    ghost from_gives = { λ _ code. code ≡ 0x10 };

    fn from(_unknown: UnknownPassword) -> u8 {
        0x10
    }
}

// The number of the password that opens a session
impl From<Session> for u8 {
    ghost from_gives = { λ s n. n ≡ password_number s };

    fn from(session: Session) -> u8 {
        match session {
            Session::Configuration => 0,
            Session::User1 => 1,
            Session::User2 => 2,
            Session::User3 => 3,
        }
    }
}

// Whether the session of password n is the open one. `is_some_and` was tried: a write of four blocks then takes six instructions more, and misses its aim.
#[tactic(auto, unfolding(crate::specs::Passwords::is_open))]
pub fn is_open(s: Option<Session>, n: u8) -> bool
    ensures { result ≡ is_open s n }
{
    match s {
        None => false,
        Some(session) => u8::from(session) == n,
    }
}

// "Present B3h .. number over 3 is 10h, sessions unchanged. Wrong value: 0Fh, no session open. Right: that session alone is open."
#[tactic(auto, unfolding(crate::specs::Passwords::present_of))]
pub fn present(k: Keys, n: u8, value: u64) -> Presentation
    ensures { result ≡ present_of k n value }
{
    let Ok(session) = Session::try_from(n) else {
        return Presentation {
            answer: Err(0x10),
            keys: k,
        };
    };
    if k.passwords[usize::from(n)] != value {
        return Presentation {
            answer: Err(0x0F),
            keys: Keys { session: None, ..k },
        };
    }
    Presentation {
        answer: Ok(()),
        keys: Keys {
            session: Some(session),
            ..k
        },
    }
}

// "Write password B1h .. number over 3 is 10h; its session not open 0Fh"
#[tactic(auto, unfolding(crate::specs::Passwords::change_verdict))]
fn change_verdict(s: Option<Session>, n: u8) -> Verdict
    ensures { result ≡ change_verdict s n }
{
    Session::try_from(n)?;
    if !is_open(s, n) {
        return Err(0x0F);
    }
    Ok(())
}

// "otherwise replaced, session kept": the keys after it, where it is not refused
pub fn change(k: Keys, n: u8, value: u64) -> Result<Keys, u8>
    ensures { result ≡ granting (change_verdict k.session n) (with_password k n value) }
{
    change_verdict(k.session, n)?;
    let mut keys = k;
    keys.passwords[n as usize] = value;
    Ok(keys)
}
