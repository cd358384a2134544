// The answer line of a call: "`number length answer record memory room`", and of a search: "`number requests list room`".
ghost use Rattle.std.specs.Prelude.{◌≤◌, ◌≡◌, length};
ghost use Rattle.put.specs.Put.{Put};
ghost use Rattle.text.specs.Text.{decimal_of};
ghost use Rattle.packed.specs.Result.{refusal_in};
ghost use Rattle.caselines.specs.Limits.{entries_most};
ghost use Rattle.caselines.specs.Entries.{entry_bytes};
ghost use Rattle.caselines.specs.Row.{list_text, search_row_text, search_text, SuitsLists, SuitsSearch};
ghost use Rattle.caselines.specs.Row.{shown, field, crc_high, fault_text, is_lettered, column_text, numbers_text, pair_text, sums_text, rest_text};
ghost use Rattle.caselines.specs.Row.{row_text, call_text, Suits};

use super::entries::put_entry_bytes;
use super::limits::LIST;
use packed::RECORD;

// Each function here puts a text at the start of out and says how long it is. A writer that held out and the place in it would be no plainer: `Put`
// also promises that all of out past the text stays, which the writer's contract would have to carry from text to text.

// What stands for no bytes.
const NONE: u8 = b'-';

// A number in decimal, and a space.
fn put_number(n: u64, out: &mut [u8]) -> usize
    requires { length (field 0x20 (decimal_of n)) ≤ length out.old }
    ensures { Put (field 0x20 (decimal_of n)) out.old out.new result }
{
    let at = text::put_decimal(n, out);
    out[at] = b' ';
    at + 1
}

// Bytes "in hex, or `-` where length is 0", and a space or newline.
fn put_field(bytes: &[u8], end: u8, out: &mut [u8]) -> usize
    requires { length (field end (shown bytes.now)) ≤ length out.old }
    ensures { Put (field end (shown bytes.now)) out.old out.new result }
{
    let at = text::put_hex_or(NONE, bytes, out);
    out[at] = end;
    at + 1
}

// "the CRC of all their bytes as four hex digits, high first"
fn crc_high(bytes: &[u8]) -> [u8; 2]
    ensures { result ≡ crc_high bytes.now }
{
    crc::crc(bytes).to_be_bytes()
}

// "`5a:0`, `5d:15`", and a space.
fn put_fault(letter: u8, place: u64, out: &mut [u8]) -> usize
    requires { length (field 0x20 (fault_text letter place)) ≤ length out.old }
    ensures { Put (field 0x20 (fault_text letter place)) out.old out.new result }
{
    let at = put::copy(&[b'5', letter, b':'], out);
    at + put_number(place, &mut out[at..])
}

// 5a to 5e, as a result has them.
fn is_lettered(number: u64) -> bool
    ensures { result ≡ is_lettered number }
{
    (0x5A..=0x5E).contains(&number)
}

// A number, 5a to 5e "with their place, also where it is 0", "all others have none"; and a space.
#[tactic(auto, unfolding(crate::specs::Row::column_text))]
fn put_column(number: u64, place: u64, out: &mut [u8]) -> usize
    requires { length (field 0x20 (column_text number place)) ≤ length out.old }
    ensures { Put (field 0x20 (column_text number place)) out.old out.new result }
{
    if !is_lettered(number) {
        return put_number(number, out);
    }
    put_fault(b'a' + (number - 0x5A) as u8, place, out)
}

// The number of a result, in 16 bits of it.
fn refusal_in(res: u64) -> u64
    ensures { result ≡ refusal_in res }
{
    res / 0x1_0000_0000 % 0x1_0000
}

// Number, with its place, and length of a result.
#[tactic(auto, unfolding(crate::specs::Row::numbers_text))]
fn put_numbers(res: u64, out: &mut [u8]) -> usize
    requires { length (numbers_text res) ≤ length out.old }
    ensures { Put (numbers_text res) out.old out.new result }
{
    let at = put_column(refusal_in(res), res / 0x1_0000_0000_0000, out);
    at + put_number(res % 0x1_0000_0000, &mut out[at..])
}

#[tactic(auto, unfolding(crate::specs::Row::pair_text))]
fn put_pair(a: &[u8], b: &[u8], end: u8, out: &mut [u8]) -> usize
    requires { length (pair_text end a.now b.now) ≤ length out.old }
    ensures { Put (pair_text end a.now b.now) out.old out.new result }
{
    let at = put_field(a, b' ', out);
    at + put_field(b, end, &mut out[at..])
}

fn put_sums(memory: &[u8], room: &[u8], out: &mut [u8]) -> usize
    requires { length (sums_text memory.now room.now) ≤ length out.old }
    ensures { Put (sums_text memory.now room.now) out.old out.new result }
{
    let first = crc_high(memory);
    let second = crc_high(room);
    put_pair(&first, &second, b'\n', out)
}

fn put_rest(answer: &[u8], tag: &[u8], memory: &[u8], room: &[u8], out: &mut [u8]) -> usize
    requires { length (rest_text answer.now tag.now memory.now room.now) ≤ length out.old }
    ensures { Put (rest_text answer.now tag.now memory.now room.now)
        out.old out.new result }
{
    let at = put_pair(answer, tag, b' ', out);
    at + put_sums(memory, room, &mut out[at..])
}

// The whole line. `tag` is the record's bytes.
#[tactic(auto, unfolding(crate::specs::Row::row_text))]
pub fn put_row(
    res: u64,
    answer: &[u8],
    tag: &[u8],
    memory: &[u8],
    room: &[u8],
    out: &mut [u8],
) -> usize
    requires { length (row_text res answer.now tag.now memory.now room.now) ≤ length out.old }
    ensures { Put (row_text res answer.now tag.now memory.now room.now)
        out.old out.new result }
{
    let at = put_numbers(res, out);
    at + put_rest(answer, tag, memory, room, &mut out[at..])
}

// The line of a call that gave a result. What it answered stands at the start of room. A length past the end of room, which no call gives,
// would show all of it.
#[tactic(auto, unfolding(crate::specs::Row::call_text), using(crate::proofs::Rows::longest))]
pub fn put_call(res: u64, tag: &[u8; RECORD], memory: &[u8], room: &[u8], out: &mut [u8]) -> usize
    requires { Suits (length room.now) (length out.old) }
    ensures { Put (call_text res tag.now memory.now room.now) out.old out.new result }
{
    let n = room.len().min((res % 0x1_0000_0000) as usize);
    put_row(res, &room[..n], tag, memory, room, out)
}

// "the CRC of all bytes of the list, each entry lowest byte first"
#[tactic(auto, using(crate::proofs::Eights::entry_bytes_length))]
fn crc_entries(list: &[u64]) -> [u8; 2]
    requires { length list.now ≤ entries_most }
    ensures { result ≡ crc_high (entry_bytes list.now) }
{
    let mut bytes = [0u8; LIST];
    let n = put_entry_bytes(list, &mut bytes);
    crc_high(&bytes[..n])
}

// "the UIDs found as they travel, `-` for none", and a space.
#[tactic(auto, using(crate::proofs::Eights::entry_bytes_length))]
fn put_found(found: &[u64], out: &mut [u8]) -> usize
    requires found_len_bound { length found.now ≤ entries_most }
    requires found_in_bounds { length (field 0x20 (shown (entry_bytes found.now))) ≤ length out.old }
    ensures { Put (field 0x20 (shown (entry_bytes found.now))) out.old out.new result }
{
    let mut bytes = [0u8; LIST];
    let n = put_entry_bytes(found, &mut bytes);
    put_field(&bytes[..n], b' ', out)
}

#[tactic(auto, unfolding(crate::specs::Row::pair_text))]
fn put_list(found: &[u64], list: &[u64], out: &mut [u8]) -> usize
    requires suits_lists { SuitsLists (length found.now) (length list.now) }
    requires list_in_bounds { length (list_text found.now list.now) ≤ length out.old }
    ensures { Put (list_text found.now list.now) out.old out.new result }
{
    let at = put_found(found, out);
    let sum = crc_entries(list);
    at + put_field(&sum, b'\n', &mut out[at..])
}

// The whole line of a search.
#[tactic(auto, unfolding(crate::specs::Row::search_row_text))]
fn put_search_row(res: u64, found: &[u64], list: &[u64], out: &mut [u8]) -> usize
    requires suits_lists { SuitsLists (length found.now) (length list.now) }
    requires list_in_bounds { length (search_row_text res found.now list.now) ≤ length out.old }
    ensures { Put (search_row_text res found.now list.now) out.old out.new result }
{
    let at = put_numbers(res, out);
    at + put_list(found, list, &mut out[at..])
}

// The line of a search over so many tags that gave a result and a list. Only a refused search has more tags than entries.
#[tactic(auto, unfolding(crate::specs::Row::search_text), using(crate::proofs::Rows::longest))]
pub fn put_search(res: u64, tags: usize, list: &[u64], out: &mut [u8]) -> usize
    requires { SuitsSearch (length list.now) (length out.old) }
    ensures { Put (search_text res tags list.now) out.old out.new result }
{
    if refusal_in(res) != 0 {
        return put_search_row(res, &list[..0], list, out);
    }
    let n = list.len().min(tags);
    put_search_row(res, &list[..n], list, out)
}
