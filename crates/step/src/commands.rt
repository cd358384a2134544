// The commands: what each does to record and memory, and what it answers.
ghost use Rattle.std.specs.Prelude.{◌≡◌, true, ◌&&◌, ◌+◌, ◌*◌, ◌≤◌, length, eqb};
ghost use Rattle.put.specs.Put.{Put};
ghost use Rattle.rights.specs.Verdict.{after_verdict, granting};
ghost use Rattle.rights.specs.Vault.{view_of};
ghost use Rattle.rights.specs.Passwords.{change_verdict, with_password};
ghost use Rattle.rights.specs.Registers.{register_at, register_verdict, with_register};
ghost use Rattle.record.specs.declared.State.TheVariants.{Quiet};
ghost use Rattle.record.specs.Update.{with_vault, with_keys, with_state, with_front};
ghost use Rattle.tag.specs.Rules.{blocks_of, last_end};
ghost use Rattle.tag.specs.Table.{first_of, more_of, head_of, data_of, limit_of};
ghost use Rattle.tag.specs.Work.{body, presents, listing, perform, apply_to_memory, with_block_lock};
ghost use Rattle.tag.specs.Blocks.{read_of, statuses, status_of, block_units, lock_verdict};
ghost use Rattle.tag.specs.Commands.{unless, register_answer, is_holding, request_of};
ghost use Rattle.tag.specs.Step.{performed};
ghost use Rattle.tag.specs.Host.{is_memory};
ghost use Rattle.step.specs.Gives.{unsealed_of, GivesUnsealed, Does, concluded, verdict_on, DataThere};

use super::ROOM;
use super::answers::{conclude, put_register, put_success, settle, silent};
use blocks::Run;
use frame::table;
use record::{Front, Outcome, State, Tag};
use rights::{Keys, Vault, Verdict, View};
use tag::{Command, Entry, OptionRule};

// "Write AFI 27h, DSFID 29h: locked 12h. Lock AFI 28h, DSFID 2Ah: locked already 11h."
fn unless_locked(t: Tag, locked: bool, code: u8, front: Front) -> Result<Tag, u8>
    ensures { result ≡ granting (unless locked code) (with_front t front) }
{
    if locked {
        return Err(code);
    }
    Ok(record::set_front(t, front))
}

// "Locks 22h, 32h"
fn lock(t: Tag, block: u16) -> Result<Tag, u8>
    ensures { result ≡ granting (lock_verdict (view_of t.vault) block) (with_vault t (with_block_lock t.vault (eqb block 1))) }
{
    let v = t.vault;
    blocks::lock_verdict(rights::seen(v), block)?;
    Ok(record::set_vault(t, blocks::lock_block(v, block == 1)))
}

fn with_keys(t: Tag, keys: Keys) -> Tag
    ensures { result ≡ with_vault t (with_keys t.vault keys) }
{
    let v = t.vault;
    record::set_vault(t, Vault { keys, ..v })
}

// "Present B3h"
fn present(t: Tag, hold: bool, number: u8, value: u64, room: &mut [u8; ROOM]) -> Outcome
    ensures { Does hold t (presents number value) room.old room.new result }
{
    let p = rights::passwords::present(t.vault.keys, number, value);
    settle(hold, p.answer, with_keys(t, p.keys), room)
}

// "Write password B1h"
fn write_password(t: Tag, number: u8, value: u64) -> Result<Tag, u8>
    ensures { result ≡ granting (change_verdict t.vault.keys.session number)
        (with_vault t (with_keys t.vault (with_password t.vault.keys number value))) }
{
    let keys = rights::passwords::change(t.vault.keys, number, value)?;
    Ok(with_keys(t, keys))
}

// "write A1h", on a tag whose last end is e
fn write_register(t: Tag, e: u8, address: u8, value: u8) -> Result<Tag, u8>
    ensures { result ≡ granting (register_verdict e (view_of t.vault) address value)
        (with_vault t (with_register t.vault address value)) }
{
    let vault = rights::registers::write_register(e, t.vault, address, value)?;
    Ok(record::set_vault(t, vault))
}

// "Read A0h"
fn read_register(t: Tag, hold: bool, address: u8, room: &mut [u8; ROOM]) -> Outcome
    ensures { Does hold t (register_answer (register_at (view_of t.vault) address)) room.old room.new result }
{
    match rights::registers::read_register(rights::seen(t.vault), address) {
        Ok(value) => Outcome {
            length: put_register(value, room),
            tag: t,
        },
        Err(code) => settle(hold, Err(code), t, room),
    }
}

// The blocks that a read names, on a tag of so many.
fn run_of(e: Entry, fields: &[u8], blocks: usize) -> Run
    ensures { result ≡ record { limit = limit_of e blocks; first = first_of e fields.now; count = more_of e fields.now + 1 } }
{
    Run {
        limit: table::limit(e, blocks),
        first: table::first_block(e, fields),
        count: table::more_blocks(e, fields) as u32 + 1,
    }
}

// The body of a read, after the flags byte and before the CRC. The bound of a run's limit is asked for here and by the three below: `blocks`, whose `Run` it
// is, asks for less.
fn put_listing(v: View, memory: &[u8], run: Run, status: bool, room: &mut [u8; ROOM]) -> usize
    requires in_memory { 4 * run.limit ≤ length memory.now }
    requires in_room { run.limit ≤ 2048 }
    ensures { Put (unsealed_of (body (listing v memory.now run.limit run.first run.count status))) room.old room.new result }
{
    let n = blocks::read_blocks(v, memory, run, status, &mut room[1..]);
    put_success(n, room)
}

// The body of a status, likewise. Two functions, and two below: one for both would take what decides and what writes as closures, each with a
// contract longer than the two lines that it saves.
fn put_statuses(v: View, run: Run, room: &mut [u8; ROOM]) -> usize
    requires { run.limit ≤ 2048 }
    ensures { Put (unsealed_of (body (statuses v run.limit run.first run.count))) room.old room.new result }
{
    let n = blocks::read_statuses(v, run, &mut room[1..]);
    put_success(n, room)
}

// "Reads 20h .. 30h .. 23h and 33h"
fn read(t: Tag, run: Run, option: bool, hold: bool, memory: &[u8], room: &mut [u8; ROOM]) -> Outcome
    requires in_memory { 4 * run.limit ≤ length memory.now }
    requires in_room { run.limit ≤ 2048 }
    ensures { GivesUnsealed (concluded hold (perform t memory.now (read_of (view_of t.vault) run.limit run.first run.count option)))
        room.old memory.now room.new result }
{
    let view = rights::seen(t.vault);
    match blocks::read_verdict(view, run.limit, run.first) {
        Ok(()) => Outcome {
            length: put_listing(view, memory, run, option, room),
            tag: t,
        },
        Err(code) => settle(hold, Err(code), t, room),
    }
}

// "2Ch and 3Ch .. give status bytes alone"
fn status(t: Tag, run: Run, hold: bool, room: &mut [u8; ROOM]) -> Outcome
    requires { run.limit ≤ 2048 }
    ensures { Does hold t (status_of (view_of t.vault) run.limit run.first run.count) room.old room.new result }
{
    match blocks::status_verdict(run.limit, run.first) {
        Ok(()) => Outcome {
            length: put_statuses(rights::seen(t.vault), run, room),
            tag: t,
        },
        Err(code) => settle(hold, Err(code), t, room),
    }
}

// "Writes 21h, 31h .. 24h, 34h": "All or none is written." The tag stays as it is, so no copy of it is given back.
fn write(t: Tag, e: Entry, fields: &[u8], memory: &mut [u8]) -> Verdict
    requires { head_of e + 4 * (more_of e fields.now + 1) ≤ length fields.now }
    ensures verdict { result ≡ verdict_on t e fields.now memory.old }
    ensures written { memory.new ≡ after_verdict (verdict_on t e fields.now memory.old) memory.old
        (apply_to_memory (block_units (first_of e fields.now) (more_of e fields.now + 1) (data_of e fields.now)) memory.old) }
{
    let limit = table::limit(e, memory.len() / 4);
    let first = table::first_block(e, fields);
    let more = table::more_blocks(e, fields);
    blocks::write_verdict(rights::seen(t.vault), limit, first, more)?;
    let start = table::head(e);
    blocks::write_blocks(memory, first, more, &fields[start..]);
    Ok(())
}

// "Option_flag on a write-like command .. holds the answer"
fn holds(e: Entry, option: bool) -> bool
    ensures { result ≡ (option && is_holding e.option) }
{
    match e.option {
        OptionRule::Refused | OptionRule::Taken => false,
        OptionRule::Holds => option,
    }
}

// E, of a tag of so many blocks; a host goes by the bytes of the memory, and by sizes alone
fn last_end(blocks: usize) -> u8
    requires { (8 ≤ blocks) × (blocks ≤ 2048) }
    ensures { result ≡ last_end blocks }
{
    (blocks / 8 - 1) as u8
}

pub fn moved(t: Tag, state: State) -> Tag
    ensures { result ≡ with_front t (with_state t.front state) }
{
    record::set_front(t, record::set_state(t.front, state))
}

// "Stay Quiet 02h gives Quiet and silence, even with Option_flag."
fn stay_quiet(t: Tag) -> Outcome
    ensures { result ≡ record { length = 0; tag = with_front t (with_state t.front Quiet) } }
{
    silent(moved(t, State::Quiet))
}

// A request: the decision over the command, of a row and its fields, as `frame::table` takes them. Each has its arm, so that none is forgotten.
pub fn execute(
    t: Tag,
    e: Entry,
    option: bool,
    fields: &[u8],
    memory: &mut [u8],
    room: &mut [u8; ROOM],
) -> Outcome
    requires memory_value { is_memory memory.old ≡ true }
    requires data_there { DataThere e fields.now }
    ensures { GivesUnsealed (performed t memory.old (request_of t.front (view_of t.vault) (blocks_of memory.old) e option
        fields.now)) room.old memory.new room.new result }
{
    let f = t.front;
    let blocks = memory.len() / 4;
    let hold = holds(e, option);
    let n = put::byte_at(fields, 0);
    match e.command {
        Command::StayQuiet => stay_quiet(t),
        Command::Read => read(t, run_of(e, fields, blocks), option, hold, memory, room),
        Command::Status => status(t, run_of(e, fields, blocks), hold, room),
        Command::ReadRegister => read_register(t, hold, n, room),
        Command::Present => present(t, hold, n, put::number8(fields, 1), room),
        Command::Write => settle(hold, write(t, e, fields, memory), t, room),
        Command::Lock => conclude(hold, t, lock(t, table::first_block(e, fields)), room),
        Command::Select => conclude(hold, t, Ok(moved(t, State::Selected)), room),
        Command::ResetToReady => conclude(hold, t, Ok(moved(t, State::Ready)), room),
        Command::WriteAfi => {
            let front = record::set_afi(f, n);
            conclude(hold, t, unless_locked(t, f.lockafi, 0x12, front), room)
        }
        Command::LockAfi => {
            let front = record::lock_afi(f);
            conclude(hold, t, unless_locked(t, f.lockafi, 0x11, front), room)
        }
        Command::WriteDsfid => {
            let front = record::set_dsfid(f, n);
            conclude(hold, t, unless_locked(t, f.lockdsfid, 0x12, front), room)
        }
        Command::LockDsfid => {
            let front = record::lock_dsfid(f);
            conclude(hold, t, unless_locked(t, f.lockdsfid, 0x11, front), room)
        }
        Command::WriteRegister => {
            let value = put::byte_at(fields, 1);
            conclude(hold, t, write_register(t, last_end(blocks), n, value), room)
        }
        Command::WritePassword => {
            let value = put::number8(fields, 1);
            conclude(hold, t, write_password(t, n, value), room)
        }
        Command::Unlisted => conclude(hold, t, Err(0x02), room),
    }
}
