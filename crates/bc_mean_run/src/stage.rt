// What a run stands in.

use bc_data::program::Class;
use bc_mean::plain::Plain;
use std::alloc::Global;

/// The store that a run reads, the program's classes, the objects of the invocation's parameters, how many calls may
/// still follow, and how many are around.
#[derive(Drop)]
pub struct Stage<'a> {
    pub alloc: Global,
    pub store: &'a Plain,
    pub classes: &'a [Class],
    pub objects: &'a [u32],
    pub left: u32,
    pub depth: u32,
}
