// How long lines, buffers and answer lines are at most: each number stands once here, and once in the definition (specs/Limits.antt).
use packed::RECORD;

// "lends n (0 to 9,000) bytes of 0 as memory"
pub const MEMORY: usize = 9000;

// "lends n (0 to 11,000) bytes of EEh as room"
pub const ROOM: usize = 11000;

// "an image of 0 to 8,300 bytes"
pub const IMAGE: usize = 8300;

// "a frame of 0 to 1,100 bytes"
pub const FRAME: usize = 1100;

// "8 bytes, a UID as it travels"
pub const UID: usize = 8;

// "a list of n entries (0 to 300)"
pub const ENTRIES: usize = 300;

// ".. 8 bytes each as they travel, 0 to 300 of them"
pub const TAGS: usize = 300;

// The bytes of such a list, and of such UIDs.
pub const LIST: usize = UID * ENTRIES;

pub const UIDS: usize = UID * TAGS;

// The longest line that has a form, `PUT 0 ` and a whole memory in hex, and one byte more, by which a longer line is told.
pub const LINE: usize = 6 + 2 * MEMORY + 1;

// The longest answer line: three characters and two numbers of at most 20 figures with a space each, an answer as long as the room, the record,
// and two sums of four digits, each with the space or newline after it.
pub const ROW: usize = 45 + (2 * ROOM + 1) + (2 * RECORD + 1) + 10;
