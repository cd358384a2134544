// "The record as 72 bytes", the form in which a host in C keeps it: from bytes to record, what bytes are a record, and from record to bytes.
#![tactic(auto)]

ghost use Rattle.std.specs.Prelude.{◌≡◌, ◌+◌, ◌*◌, [], ◌∷◌, get_or};
ghost use Rattle.tag.specs.Rules.{off_rule, together_rule};
ghost use Rattle.packed.specs.Bytes.{state_in, session_in, round_in, held_in, front_in, record_in, lasting_rule, record_rule};
ghost use Rattle.packed.specs.Bytes.{session_byte, open_byte, slot_byte, mask_byte, held_byte, code_byte, passing_of, record_of};
ghost use Rattle.packed.specs.Parts.{value_part, round_part, held_part, passing_part, PassingLeft};

use host::rules::is_code;
use image::reading::{read_areas, read_header};
use image::rules::{locks_right, mark, reserved_right};
use image::writing::write_header;
use put::copy;
use record::{Front, Round, State, Tag};
use rights::registers::possible_areas;
use rights::{Keys, Session, Vault, Verdict};

// How many bytes a record has: `record_length` of the definition, UISTERMO_RECORD of the header.
pub const RECORD: usize = 72;

// Where the passing parts stand: "then at 64 field", and so on to 71
const FIELD: usize = 64;

const STATE: usize = 65;

const SESSION: usize = 66;

const ROUND: usize = 67;

const SLOT: usize = 68;

const MASK: usize = 69;

const HELD: usize = 70;

const CODE: usize = 71;

// "65 state (0 Ready, 1 Quiet, 2 Selected)". Of any byte there is one, so this is no `TryFrom`.
fn state_in(b: u8) -> State
    ensures { result ≡ state_in b }
{
    match b {
        0 => State::Ready,
        1 => State::Quiet,
        _ => State::Selected,
    }
}

// "66 session (0 none, 1 to 4 for passwords 0 to 3)", of any byte too, as round and held answer are
fn session_in(b: u8) -> Option<Session>
    ensures { result ≡ session_in b }
{
    match b {
        0 => None,
        1 => Some(Session::Configuration),
        2 => Some(Session::User1),
        3 => Some(Session::User2),
        _ => Some(Session::User3),
    }
}

// "67 round (0 none, 1 open), 68 its slot, 69 its mask length"
fn round_in(b: u8, slot: u8, mask: u8) -> Option<Round>
    ensures { result ≡ round_in b slot mask }
{
    match b {
        1 => Some(Round { slot, mask }),
        _ => None,
    }
}

// "70 held (0 none, 1 success, 2 error), 71 its code"
fn held_in(b: u8, code: u8) -> Option<Verdict>
    ensures { result ≡ held_in b code }
{
    match b {
        0 => None,
        1 => Some(Ok(())),
        _ => Some(Err(code)),
    }
}

// The record that bytes stand for, whether they keep the rules or not: the lasting parts as in an image's header, and the passing ones after it.
#[inline(always)] // in line a field that an event does not touch is not stored and loaded again: some 60 instructions an event
#[tactic(auto, unfolding(crate::specs::Bytes::record_in))]
pub fn read_record(bytes: &[u8; RECORD]) -> Tag
    ensures { result ≡ record_in bytes.now }
{
    let Tag { front, vault } = read_header(bytes);
    let keys = Keys {
        session: session_in(bytes[SESSION]),
        ..vault.keys
    };
    Tag {
        front: Front {
            field: bytes[FIELD] == 1,
            state: state_in(bytes[STATE]),
            round: round_in(bytes[ROUND], bytes[SLOT], bytes[MASK]),
            held: held_in(bytes[HELD], bytes[CODE]),
            ..front
        },
        vault: Vault { keys, ..vault },
    }
}

// "a size mark that does not fit the lent memory, a reserved byte or lock bit that is not 0"
#[tactic(auto, unfolding(crate::specs::Bytes::lasting_rule))]
fn lasting_right(bytes: &[u8; RECORD], size: usize) -> bool
    ensures { result ≡ lasting_rule size bytes.now }
{
    (bytes[0] == mark(size)) & (locks_right(bytes) & reserved_right(bytes))
}

// "64 field (0, 1), 65 state (0 Ready, 1 Quiet, 2 Selected), 66 session (0 none, 1 to 4 for passwords 0 to 3)"
fn values_right(bytes: &[u8; RECORD]) -> bool
    ensures { result ≡ value_part bytes.now }
{
    (bytes[FIELD] <= 1) & ((bytes[STATE] <= 2) & (bytes[SESSION] <= 4))
}

// A round that is "0 none, 1 open", no "slot or mask without a round", and 01's "A round has slot 0 to 15 and mask length at most 60"
#[tactic(auto, unfolding(tag::specs::Rules::round_rule))]
fn round_right(bytes: &[u8; RECORD]) -> bool
    ensures { result ≡ round_part bytes.now }
{
    match bytes[ROUND] {
        0 => (bytes[SLOT] == 0) & (bytes[MASK] == 0),
        1 => (bytes[SLOT] <= 15) & (bytes[MASK] <= 60),
        _ => false,
    }
}

// A held answer that is "0 none, 1 success, 2 error", no "code without a held error", and 01's "a held answer is success or one error code of
// this page"
#[tactic(auto, unfolding(tag::specs::Rules::held_rule))]
fn held_right(bytes: &[u8; RECORD]) -> bool
    ensures { result ≡ held_part bytes.now }
{
    match bytes[HELD] {
        0 | 1 => bytes[CODE] == 0,
        2 => is_code(bytes[CODE]),
        _ => false,
    }
}

// 01: "A round never stands with a held answer nor in Quiet."
fn together_right(bytes: &[u8; RECORD]) -> bool
    ensures { result ≡ together_rule (front_in bytes.now) }
{
    (bytes[ROUND] != 1) | ((bytes[HELD] == 0) & (bytes[STATE] != 1))
}

// 01: "With the field off nothing passing is set and the state is Ready."
fn off_right(bytes: &[u8; RECORD]) -> bool
    ensures { result ≡ off_rule (front_in bytes.now) (session_in (get_or bytes.now 66 0)) }
{
    (bytes[FIELD] == 1)
        | (((bytes[STATE] == 0) & (bytes[SESSION] == 0))
            & ((bytes[ROUND] != 1) & (bytes[HELD] == 0)))
}

// Bytes 64 to 71 as they lie: "a value over those named, a slot or mask without a round, a code without a held error", and the record
// rules of 01 but those of the areas. No record is made of them first.
fn passing_right(bytes: &[u8; RECORD]) -> bool
    ensures { result ≡ passing_part bytes.now }
{
    values_right(bytes)
        && round_right(bytes)
        && held_right(bytes)
        && together_right(bytes)
        && off_right(bytes)
}

// Whether bytes are a record beside a memory of so many bytes, whose last end is e.
#[tactic(auto, using(crate::proofs::InBytes::record_in_parts, image::proofs::Ends::last_end_lem))]
pub fn is_record(bytes: &[u8; RECORD], size: usize, e: u8) -> bool
    ensures { result ≡ record_rule size (8 * (e + 1)) bytes.now }
{
    lasting_right(bytes, size) && possible_areas(e, read_areas(bytes)) && passing_right(bytes)
}

// "66 session (0 none, 1 to 4 for passwords 0 to 3)"
fn session_byte(session: Option<Session>) -> u8
    ensures { result ≡ session_byte session }
{
    session.map_or(0, |session| 1 + session as u8)
}

// "67 round (0 none, 1 open), 68 its slot, 69 its mask length"
fn round_bytes(round: Option<Round>) -> [u8; 3]
    ensures { result ≡ open_byte round ∷ slot_byte round ∷ mask_byte round ∷ [] }
{
    match round {
        None => [0, 0, 0],
        Some(Round { slot, mask }) => [1, slot, mask],
    }
}

// "70 held (0 none, 1 success, 2 error), 71 its code"
fn held_bytes(held: Option<Verdict>) -> [u8; 2]
    ensures { result ≡ held_byte held ∷ code_byte held ∷ [] }
{
    match held {
        None => [0, 0],
        Some(Ok(())) => [1, 0],
        Some(Err(code)) => [2, code],
    }
}

// Bytes 64 to 71.
fn passing(t: Tag) -> [u8; 8]
    ensures { result ≡ passing_of t }
{
    let Tag { front, vault } = t;
    let [open, slot, mask] = round_bytes(front.round);
    let [held, code] = held_bytes(front.held);
    [
        u8::from(front.field),
        front.state as u8,
        session_byte(vault.keys.session),
        open,
        slot,
        mask,
        held,
        code,
    ]
}

// The passing parts of a tag fill bytes 64 to 71; the lasting ones stay.
pub fn write_passing(t: Tag, bytes: &mut [u8; RECORD])
    ensures { PassingLeft t bytes.old bytes.new }
{
    copy(&passing(t), &mut bytes[FIELD..]);
}

// The record of a tag beside a memory of so many bytes fills the bytes.
pub fn write_record(t: Tag, size: usize, bytes: &mut [u8; RECORD])
    ensures { bytes.new ≡ record_of size t }
{
    write_header(t, size, bytes);
    write_passing(t, bytes);
}
