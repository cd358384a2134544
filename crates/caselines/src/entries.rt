// Entries of 8 bytes, lowest byte first: UIDs "as they travel", and the list that a search fills. Both are the caller's room.
ghost use Rattle.std.specs.Prelude.{◌≤◌, length};
ghost use Rattle.put.specs.Put.{Put};
ghost use Rattle.caselines.specs.Entries.{entries_in, entry_bytes};

use super::limits::UID;

// The entries that bytes stand for go to the start of out. Places are counted, since after a loop over `iter_mut` no proof knows the entries.
pub fn put_entries(bytes: &[u8], out: &mut [u64]) -> usize
    requires { length (entries_in bytes.now) ≤ length out.old }
    ensures { Put (entries_in bytes.now) out.old out.new result }
{
    let n = bytes.len() / UID;
    for i in 0..n {
        out[i] = put::eight_of(bytes, UID * i);
    }
    n
}

// The bytes of a list go to the start of out.
pub fn put_entry_bytes(list: &[u64], out: &mut [u8]) -> usize
    requires { length (entry_bytes list.now) ≤ length out.old }
    ensures { Put (entry_bytes list.now) out.old out.new result }
{
    let mut at = 0;
    for &entry in list {
        at += put::put_number(entry, UID, &mut out[at..]);
    }
    at
}
