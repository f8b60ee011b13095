//! From the bytes of a program's text to its tree and program, or to its one fault.
#![tactic(auto)]

pub mod reader;
