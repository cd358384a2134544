// The command table, and the fields of the commands on blocks.
ghost use Rattle.std.specs.Prelude.{◌≡◌, true};
ghost use Rattle.tag.specs.Table.{plain, entry_of, first_of, more_of, head_of, limit_of, length_of};

use put::{byte_at, number2};
use tag::{Command, Entry, Length, OptionRule};

// A row of a command with no block number, or one of one byte.
fn row(command: Command, length: Length, option: OptionRule) -> Entry
    ensures { result ≡ plain command length option }
{
    Entry {
        command,
        wide: false,
        many: false,
        length,
        option,
    }
}

// The row with a count.
fn counted(row: Entry) -> Entry
    ensures { result ≡ record row { many = true } }
{
    Entry { many: true, ..row }
}

// The row with a block number, and a count, of two bytes.
fn wide(row: Entry) -> Entry
    ensures { result ≡ record row { wide = true } }
{
    Entry { wide: true, ..row }
}

// The decision over the command byte: work, length rule and option rule of each listed code.
#[tactic(auto, unfolding(tag::specs::Table::entry_of))]
pub fn entry_of(code: u8) -> Entry
    ensures { result ≡ entry_of code }
{
    match code {
        0x02 => row(Command::StayQuiet, Length::Fixed(0), OptionRule::Taken),
        0x20 => row(Command::Read, Length::Fixed(1), OptionRule::Taken),
        0x21 => row(Command::Write, Length::Fixed(5), OptionRule::Holds),
        0x22 => row(Command::Lock, Length::Fixed(1), OptionRule::Holds),
        0x23 => counted(row(Command::Read, Length::Fixed(2), OptionRule::Taken)),
        0x24 => counted(row(Command::Write, Length::PerBlock(2), OptionRule::Holds)),
        0x25 => row(Command::Select, Length::Fixed(0), OptionRule::Refused),
        0x26 => row(Command::ResetToReady, Length::Fixed(0), OptionRule::Refused),
        0x27 => row(Command::WriteAfi, Length::Fixed(1), OptionRule::Holds),
        0x28 => row(Command::LockAfi, Length::Fixed(0), OptionRule::Holds),
        0x29 => row(Command::WriteDsfid, Length::Fixed(1), OptionRule::Holds),
        0x2A => row(Command::LockDsfid, Length::Fixed(0), OptionRule::Holds),
        0x2C => counted(row(Command::Status, Length::Fixed(2), OptionRule::Refused)),
        0x30 => wide(row(Command::Read, Length::Fixed(2), OptionRule::Taken)),
        0x31 => wide(row(Command::Write, Length::Fixed(6), OptionRule::Holds)),
        0x32 => wide(row(Command::Lock, Length::Fixed(2), OptionRule::Holds)),
        0x33 => wide(counted(row(Command::Read, Length::Fixed(4), OptionRule::Taken))),
        0x34 => wide(counted(row(Command::Write, Length::PerBlock(4), OptionRule::Holds))),
        0x3C => wide(counted(row(Command::Status, Length::Fixed(4), OptionRule::Refused))),
        0xA0 => row(Command::ReadRegister, Length::Fixed(1), OptionRule::Refused),
        0xA1 => row(Command::WriteRegister, Length::Fixed(2), OptionRule::Holds),
        0xB1 => row(Command::WritePassword, Length::Fixed(9), OptionRule::Holds),
        0xB3 => row(Command::Present, Length::Fixed(9), OptionRule::Refused),
        _ => row(Command::Unlisted, Length::Fixed(0), OptionRule::Refused),
    }
}

// "first block, then count less one, same width"
#[tactic(auto, unfolding(tag::specs::Table::first_of))]
pub fn first_block(e: Entry, fields: &[u8]) -> u16
    ensures { result ≡ first_of e fields.now }
{
    if e.wide {
        number2(fields, 0)
    } else {
        byte_at(fields, 0).into()
    }
}

// The count less one, 0 where the command has none.
#[tactic(auto, unfolding(tag::specs::Table::more_of))]
pub fn more_blocks(e: Entry, fields: &[u8]) -> u16
    ensures { result ≡ more_of e fields.now }
{
    match (e.many, e.wide) {
        (true, true) => number2(fields, 2),
        (true, false) => byte_at(fields, 1).into(),
        (false, _) => 0,
    }
}

// How many bytes first block and count take.
#[tactic(auto, unfolding(tag::specs::Table::head_of))]
pub fn head(e: Entry) -> usize
    ensures { result ≡ head_of e }
{
    match (e.wide, e.many) {
        (true, true) => 4,
        (true, false) | (false, true) => 2,
        (false, false) => 1,
    }
}

// "For one-byte commands, outside begins also at block 100h."
#[tactic(auto, unfolding(tag::specs::Table::limit_of))]
pub fn limit(e: Entry, blocks: usize) -> usize
    ensures { result ≡ limit_of e blocks }
{
    if e.wide { blocks } else { blocks.min(0x100) }
}

// The length that the fields must have. Row and fields are lent one by one: `head` and `limit` look at the row alone.
#[tactic(auto, unfolding(tag::specs::Table::length_of))]
pub fn right_length(e: Entry, fields: &[u8]) -> usize
    ensures { result ≡ length_of e fields.now }
{
    match e.length {
        Length::Fixed(n) => n.into(),
        Length::PerBlock(n) => usize::from(n) + 4 * (usize::from(more_blocks(e, fields)) + 1),
    }
}
