// A casebook's lines: what a line asks for, what it lends, and the answer line of a call. It reads, writes and calls nothing: the program casebook does.
#![tactic(auto)]

pub mod entries; // entries.rt: UIDs and lists of them, as bytes
pub mod form; // form.rt: what a line asks for
pub mod lent; // lent.rt: what a line lends
pub mod limits; // limits.rt: how long lines, buffers and answer lines are at most
pub mod row; // row.rt: the answer line of a call
