// The C boundary as C links it: the calls of `cabi` under their C names, with the same promises. `include/uistermo.h` says the same in C.
#![tactic(auto)]

ghost use Rattle.cabi.specs.Calls.{EventLeaves, LoadLeaves, SaveLeaves, FactoryLeaves, SearchLeaves};

use packed::RECORD;

// An event. Another kind than 0 to 3 is none: after checks 1 to 3, silence and nothing changed
#[unsafe(no_mangle)]
pub extern "C" fn uistermo_event(
    bytes: &mut [u8; RECORD],
    memory: &mut [u8],
    room: &mut [u8],
    kind: u32,
    frame: &[u8],
) -> u64
    ensures { EventLeaves kind frame.now bytes.old memory.old room.old
        bytes.new memory.new room.new result }
{
    cabi::uistermo_event(bytes, memory, room, kind, frame)
}

// 01: "Loading checks 4, then 1, then 5"; 02: "5a to 5e stand where 5 stood." "LOAD does not look at them", the bytes that were there
#[unsafe(no_mangle)]
pub extern "C" fn uistermo_load(bytes: &mut [u8; RECORD], image: &[u8], memory: &mut [u8]) -> u64
    ensures { LoadLeaves image.now bytes.old memory.old bytes.new memory.new result }
{
    cabi::uistermo_load(bytes, image, memory)
}

// "the size is the memory's; fills it with zeros; refusal 1, or result 0". It does not look at the bytes that were there either
#[unsafe(no_mangle)]
pub extern "C" fn uistermo_factory(bytes: &mut [u8; RECORD], uid: u64, memory: &mut [u8]) -> u64
    ensures { FactoryLeaves uid bytes.old memory.old bytes.new memory.new result }
{
    cabi::uistermo_factory(bytes, uid, memory)
}

// "SAVE 4, 1 or 3 in 01's order"
#[unsafe(no_mangle)]
pub extern "C" fn uistermo_save(bytes: &[u8; RECORD], memory: &[u8], image: &mut [u8]) -> u64
    ensures { SaveLeaves bytes.now memory.now image.old image.new result }
{
    cabi::uistermo_save(bytes, memory, image)
}

// "the length of the result is the number of requests"
#[unsafe(no_mangle)]
pub extern "C" fn uistermo_search(uids: &[u64], list: &mut [u64]) -> u64
    ensures { SearchLeaves uids.now list.old list.new result }
{
    cabi::uistermo_search(uids, list)
}
