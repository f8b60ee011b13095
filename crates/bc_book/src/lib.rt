//! The book: what workers share of a run, and each event of it.
#![tactic(auto)]

pub mod book;
mod commit;
mod moved;
mod parts;
