// The tag's record by value, in two halves: what any reader may learn (Front), and what guards the memory (Vault, of `rights`).
// Lasting: UID, AFI, DSFID, five lock bits, seven area registers, four passwords. Passing: field, state, the open session, an inventory
// round, a held answer. User memory is lent beside it, and its length gives the size. Events, refusals, tests and setters stand here too.
#![tactic(auto)]

ghost use Rattle.std.specs.Prelude.{◌≡◌};
ghost use Rattle.record.specs.Update.{with_state, with_round, with_held, with_afi, with_dsfid, with_afi_locked, with_dsfid_locked};
ghost use Rattle.record.specs.Update.{with_front, with_vault, passing_cleared, sessionless};

use rights::{Keys, Vault, Verdict};

#[derive(Clone, Copy, Debug, PartialEq, Eq)]
pub enum State {
    Ready,
    Quiet,
    Selected,
}

// "an inventory round": the running slot, and the mask length that it was opened with
#[derive(Clone, Copy, Debug, PartialEq, Eq)]
pub struct Round {
    pub slot: u8,
    pub mask: u8,
}

#[derive(Clone, Copy)]
pub struct Front {
    // lasting
    pub uid: u64,
    pub afi: u8,
    pub dsfid: u8,
    pub lockafi: bool,
    pub lockdsfid: bool,
    // passing
    pub field: bool,
    pub state: State,
    pub round: Option<Round>,
    pub held: Option<Verdict>, // "a held answer": success or an error code
}

#[derive(Clone, Copy)]
pub struct Tag {
    pub front: Front,
    pub vault: Vault,
}

// What kind of event happens to a tag: the field comes or goes, a frame ends, or a request comes, whose bytes are lent beside it.
#[derive(Clone, Copy, Debug, PartialEq, Eq)]
pub enum Kind {
    FieldOn,
    FieldOff,
    EndOfFrame,
    Request,
}

// "Host calls and their numbers", and those of 02: a fault of a header has the place of its byte
#[derive(Clone, Copy, Debug, PartialEq, Eq)]
pub enum Refusal {
    Memory,
    Room,
    Record,
    Image,
    Mark(u8),
    Lock(u8),
    Protection(u8),
    End(u8),
    Reserved(u8),
    Tags,
    Equal,
    Small,
}

// What an event or a host's call gives that is not refused: length of the answer, 0 for silence, or of the saved image, and the record
#[derive(Clone, Copy)]
pub struct Outcome {
    pub length: usize,
    pub tag: Tag,
}

// Setters: each is a part of the definition of the same name, which the promises of the calls above go by.
pub fn set_state(f: Front, state: State) -> Front
    ensures { result ≡ with_state f state }
{
    Front { state, ..f }
}

pub fn set_round(f: Front, round: Option<Round>) -> Front
    ensures { result ≡ with_round f round }
{
    Front { round, ..f }
}

pub fn set_held(f: Front, held: Option<Verdict>) -> Front
    ensures { result ≡ with_held f held }
{
    Front { held, ..f }
}

pub fn set_afi(f: Front, afi: u8) -> Front
    ensures { result ≡ with_afi f afi }
{
    Front { afi, ..f }
}

pub fn set_dsfid(f: Front, dsfid: u8) -> Front
    ensures { result ≡ with_dsfid f dsfid }
{
    Front { dsfid, ..f }
}

pub fn lock_afi(f: Front) -> Front
    ensures { result ≡ with_afi_locked f }
{
    Front { lockafi: true, ..f }
}

pub fn lock_dsfid(f: Front) -> Front
    ensures { result ≡ with_dsfid_locked f }
{
    Front {
        lockdsfid: true,
        ..f
    }
}

pub fn set_front(t: Tag, front: Front) -> Tag
    ensures { result ≡ with_front t front }
{
    Tag { front, ..t }
}

pub fn set_vault(t: Tag, vault: Vault) -> Tag
    ensures { result ≡ with_vault t vault }
{
    Tag { vault, ..t }
}

// The tag as the field comes or goes: "Field off clears passing parts; field on gives Ready".
pub fn power(t: Tag, field: bool) -> Tag
    ensures { result ≡ record { front = passing_cleared t.front field; vault = sessionless t.vault } }
{
    let f = t.front;
    let v = t.vault;
    let k = v.keys;
    let front = Front {
        field,
        state: State::Ready,
        round: None,
        held: None,
        ..f
    };
    let keys = Keys { session: None, ..k };
    let vault = Vault { keys, ..v };
    Tag { front, vault }
}
