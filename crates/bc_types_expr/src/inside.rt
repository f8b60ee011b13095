// Where a body stands.

use crate::table::Table;
use bc_data::program::Shape;

/// In a class's method or constructor, or in a task, which has no class; and the result that is asked for there.
#[derive(Clone, Copy)]
pub struct Inside<'a> {
    pub table: &'a Table,
    pub me: Option<u32>,
    pub result: Option<Shape>,
}
