// The rules for areas and passwords of document 01, "reviewed and released apart from framing": which blocks may be read and written
// under the open session, what a presented password does, and which registers may be written with which values.
#![tactic(auto)]

pub mod blocks; // blocks.rt: areas, what may be read and written in them, runs of blocks
pub mod passwords; // passwords.rt: presenting and changing a password
pub mod registers; // registers.rt: reading and writing a register, possible registers

ghost use Rattle.std.specs.Prelude.{◌≡◌};
ghost use Rattle.rights.specs.Vault.{view_of};

// The session of each password
#[derive(Clone, Copy, Debug, PartialEq, Eq)]
pub enum Session {
    Configuration,
    User1,
    User2,
    User3,
}

// "seven area registers", in the order of the image
#[derive(Clone, Copy)]
pub struct Areas {
    pub rfa1ss: u8,
    pub enda1: u8,
    pub rfa2ss: u8,
    pub enda2: u8,
    pub rfa3ss: u8,
    pub enda3: u8,
    pub rfa4ss: u8,
}

// "four 64-bit passwords (number 0 is configuration)", lasting, and "the one open session or none", passing
#[derive(Clone, Copy)]
pub struct Keys {
    pub passwords: [u64; 4],
    pub session: Option<Session>,
}

// What the tag guards its memory with: registers, the locks of blocks 0 and 1, LOCK_CFG, and the keys
#[derive(Clone, Copy)]
pub struct Vault {
    pub areas: Areas,
    pub lock0: bool,
    pub lock1: bool,
    pub lockcfg: bool,
    pub keys: Keys,
}

// All of a vault but the passwords: what a decision may look at
#[derive(Clone, Copy)]
pub struct View {
    pub areas: Areas,
    pub lock0: bool,
    pub lock1: bool,
    pub lockcfg: bool,
    pub session: Option<Session>,
}

// "Success begins 00h; an error is 01h, code". The code is the document's number. It is a byte and no enum: a record from outside may hold any
// (`host` refuses one with a code that the document does not have), and variants could only be named by their numbers again.
pub type Verdict = Result<(), u8>;

pub fn seen(v: Vault) -> View
    ensures { result ≡ view_of v }
{
    View {
        areas: v.areas,
        lock0: v.lock0,
        lock1: v.lock1,
        lockcfg: v.lockcfg,
        session: v.keys.session,
    }
}
