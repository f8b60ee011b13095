//! Objects of the outside: shelves of files, sources of bytes and sinks for bytes, in memory and real.
#![tactic(auto)]

pub mod calls;
pub mod fault;
pub mod file_shelf;
pub mod shelf;
pub mod sink;
pub mod source;
