// "Blocks and areas" of document 01 on lent memory: reads of several blocks, their status, block writes and block locks. Each is decided
// first, from what any reader may learn, and then done.
#![tactic(auto)]

ghost use Rattle.std.specs.Prelude.{◌≡◌, ◌+◌, ◌*◌, ◌≤◌, length, if◌then◌else◌};
ghost use Rattle.put.specs.Put.{Put};
ghost use Rattle.tag.specs.Work.{block_shown, listing, apply_to_memory, with_block_lock};
ghost use Rattle.tag.specs.Blocks.{read_verdict, statuses, status_verdict, write_verdict, block_units, lock_verdict};

use rights::{Vault, Verdict, View};

// The blocks that a read names: from the first one on, count of them, of which those from the limit on are outside
#[derive(Clone, Copy)]
pub struct Run {
    pub limit: usize,
    pub first: u16,
    pub count: u32,
}

// "First block outside: 10h. First block not readable: 15h." A verdict looks at two numbers of a run, and so takes no `Run`.
#[tactic(auto, unfolding(tag::specs::Blocks::read_verdict))]
pub fn read_verdict(v: View, limit: usize, first: u16) -> Verdict
    ensures { result ≡ read_verdict v limit first }
{
    let block = first as usize;
    if limit <= block {
        return Err(0x10);
    }
    if !rights::blocks::readable(v, block) {
        return Err(0x15);
    }
    Ok(())
}

// What a read answers for a block goes to the start of out, the caller's room, here as below: its length is returned. The block's four bytes
// are taken by value: of these a compiler makes one store, where of two slices it cannot tell whether they overlap.
fn put_block(v: View, mem: &[u8], block: usize, status: bool, out: &mut [u8]) -> usize
    requires block_in_bounds { 4 * block + 4 ≤ length mem.now }
    requires else_in_bounds { (if status then 5 else 4) ≤ length out.old }
    ensures { Put (block_shown v mem.now block status) out.old out.new result }
{
    let bytes: [u8; 4] = *mem[4 * block..].first_chunk().unwrap();
    if status {
        out[0] = rights::blocks::status(v, block);
        return 1 + put::copy(&bytes, &mut out[1..]);
    }
    put::copy(&bytes, out)
}

// The blocks of a run go to the start of out: "the list stops before the first block that is outside or not readable", and the loop "yields by break the
// count of blocks answered", as document 01 wants it.
pub fn read_blocks(v: View, mem: &[u8], run: Run, status: bool, out: &mut [u8]) -> usize
    requires limit_in_bounds { 4 * run.limit ≤ length mem.now }
    requires limit_in_bounds_2 { 5 * run.limit ≤ length out.old }
    ensures { Put (listing v mem.now run.limit run.first run.count status) out.old out.new result }
{
    let size = if status { 5 } else { 4 };
    let mut n = 0;
    let blocks = loop {
        if n >= run.count as usize {
            break n;
        }
        let block = run.first as usize + n;
        if block >= run.limit {
            break n; // "outside"
        }
        if !rights::blocks::readable(v, block) {
            break n; // "not readable"
        }
        put_block(v, mem, block, status, &mut out[size * n..]);
        n += 1;
    };
    size * blocks
}

// "outside answers 10h"
#[tactic(auto, unfolding(tag::specs::Blocks::status_verdict))]
pub fn status_verdict(limit: usize, first: u16) -> Verdict
    ensures { result ≡ status_verdict limit first }
{
    if limit <= first as usize {
        return Err(0x10);
    }
    Ok(())
}

// The status bytes of the blocks of a run go to the start of out: outside "cuts as above, readability does not".
pub fn read_statuses(v: View, run: Run, out: &mut [u8]) -> usize
    requires { run.limit ≤ length out.old }
    ensures { Put (statuses v run.limit run.first run.count) out.old out.new result }
{
    let count = run.count as usize;
    for n in 0..count {
        let block = run.first as usize + n;
        if block >= run.limit {
            return n;
        }
        out[n] = rights::blocks::status(v, block);
    }
    count
}

// "count over 4 is 0Fh; any block outside 10h; area border crossed 0Fh; any block not writable or locked 12h", of the first block and so
// many more.
#[tactic(auto, unfolding(tag::specs::Blocks::write_verdict))]
pub fn write_verdict(v: View, limit: usize, first: u16, more: u16) -> Verdict
    ensures { result ≡ write_verdict v limit first more }
{
    if 4 < more as usize + 1 {
        return Err(0x0F);
    }
    if limit <= first as usize + more as usize {
        return Err(0x10);
    }
    let areas = v.areas;
    if rights::blocks::crosses(areas, first, more) {
        return Err(0x0F);
    }
    if rights::blocks::any_barred(v, first, more + 1) {
        return Err(0x12);
    }
    Ok(())
}

// "All or none is written": the bytes of the first block and so many more, in one copy.
pub fn write_blocks(mem: &mut [u8], first: u16, more: u16, bytes: &[u8])
    requires more_in_bounds { 4 * (first + (more + 1)) ≤ length mem.old }
    requires more_in_bounds_2 { 4 * (more + 1) ≤ length bytes.now }
    ensures { mem.new ≡ apply_to_memory (block_units first (more + 1) bytes.now) mem.old }
{
    let at = 4 * (first as usize);
    let size = 4 * (more as usize + 1);
    put::copy(&bytes[..size], &mut mem[at..]);
}

// "block over 1 is 10h; already locked 11h; not writable 14h"
#[tactic(auto, unfolding(tag::specs::Blocks::lock_verdict))]
pub fn lock_verdict(v: View, block: u16) -> Verdict
    ensures { result ≡ lock_verdict v block }
{
    let b = block as usize;
    if 1 < b {
        return Err(0x10);
    }
    if rights::blocks::locked(v, b) {
        return Err(0x11);
    }
    if !rights::blocks::writable(v, b) {
        return Err(0x14);
    }
    Ok(())
}

// The vault with the second block locked, block 1, or the first, block 0.
pub fn lock_block(v: Vault, second: bool) -> Vault
    ensures { result ≡ with_block_lock v second }
{
    if second {
        Vault { lock1: true, ..v }
    } else {
        Vault { lock0: true, ..v }
    }
}
