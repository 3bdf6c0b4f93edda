// Floats of 8 bytes and of 4, in a record's bytes.

#![tactic(auto)]

// The forms, by version.
pub mod forms;
// The reader of one 64-bit word.
pub mod reader;
// Readers and writers of one number at a place.
pub mod bytes;
// Which floats a form represents exactly.
pub mod representable;
// Runs of floats and of u32.
pub mod runs;

// A float of four bytes, and the float of eight bytes that it is.
pub mod short;
