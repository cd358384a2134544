// "Image: 64-byte header, then user memory." What an image must be like, what it says of a tag, and how it is written. Whether a call is
// refused is decided by the host's calls, above. The public functions that look at a header take any slice that has one, of an image or of a record of
// 72 bytes, and so ask for 64 bytes by a `requires`.
#![tactic(auto)]

pub mod rules; // rules.rt: the rules of the header
pub mod reading; // reading.rt: from an image to record and memory; a factory tag
pub mod writing; // writing.rt: from record and memory to an image
