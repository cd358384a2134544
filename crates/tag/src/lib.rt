// The definition of the base of document 01, in specs/, with the theorems over it, in proofs/. Of code there is only what the definition
// and the code above it share: the command table's types, and what is heard of a frame.
#![tactic(auto)]

// The work that a command asks for.
#[derive(Clone, Copy, Debug, PartialEq, Eq)]
pub enum Command {
    StayQuiet,
    Read,
    Write,
    Lock,
    Select,
    ResetToReady,
    WriteAfi,
    LockAfi,
    WriteDsfid,
    LockDsfid,
    Status,
    ReadRegister,
    WriteRegister,
    WritePassword,
    Present,
    Unlisted,
}

// How many bytes a command's fields have: a number, or a number and four for each block that is written.
#[derive(Clone, Copy, Debug, PartialEq, Eq)]
pub enum Length {
    Fixed(u8),
    PerBlock(u8),
}

// What a command does with Option_flag: error 03h, its own use of it, or hold the answer.
#[derive(Clone, Copy, Debug, PartialEq, Eq)]
pub enum OptionRule {
    Refused,
    Taken,
    Holds,
}

// A row of the command table. Block numbers, and counts, have two bytes where the command is wide; a count is there where it is many.
#[derive(Clone, Copy, Debug, PartialEq, Eq)]
pub struct Entry {
    pub command: Command,
    pub wide: bool,
    pub many: bool,
    pub length: Length,
    pub option: OptionRule,
}

// What is heard of a frame: nothing that counts; a Select of another tag, by which this one is deselected; an Inventory; an error; or a
// request, whose fields begin at a place.
#[derive(Clone, Copy)]
pub enum Heard {
    Silence,
    Deselected,
    Inventory,
    Error(u8),
    Request {
        entry: Entry,
        option: bool,
        start: usize,
    },
}
