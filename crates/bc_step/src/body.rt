// What a write does to a body, and whether two bodies are the same.

ghost use Rattle.std.specs.Prelude.{◌≡◌, ◌<◌, not, length, filter, OnOk, OnErr};
ghost use Rattle.std.specs.Cmp.Lexicographic.{pointwise};
ghost use Rattle.bc_mean.specs.Changes.{same_kind, same_body};
ghost use Rattle.bc_mean.specs.Values.{same_tag, same_value};
ghost use Rattle.bc_mean.specs.Work.{with_flag};
ghost use Rattle.bc_step.specs.Area.{FitsMask, edited};

use bc_data::list::List;
use bc_data::run::{Body, TagRef, Value};
use std::alloc::AllocError;

/// A write: a cell, a flag, a tag instance that is bound last, or one that is cleared.
#[derive(Clone, Copy, Debug, PartialEq, Eq)]
pub enum Edit {
    Cell(usize, Value),
    Flag(u32, bool),
    Bind(TagRef),
    Unbind(TagRef),
}

pub(crate) fn same_tag(s: &TagRef, t: &TagRef) -> bool
    ensures { result ≡ same_tag s.now t.now }
{
    *s == *t
}

/// Whether two bodies are the same, field by field.
pub fn same_body(a: &Body, b: &Body) -> bool
    ensures { result ≡ same_body a.now b.now }
{
    a.kind == b.kind
        && a.cells.as_slice() == b.cells.as_slice()
        && a.flags == b.flags
        && a.tags.as_slice() == b.tags.as_slice()
}

/// A mask with the bit of a flag set or cleared.
fn with_flag(mask: u32, flag: u32, on: bool) -> u32
    requires { flag < 32 }
    ensures { result ≡ with_flag mask flag on }
{
    let bit = 1u32 << flag;
    if on { mask | bit } else { mask - (mask & bit) }
}

/// Leaves the tag instances other than this one, in order. It takes no memory.
fn close_up(tags: &mut List<TagRef>, t: TagRef)
    ensures { tags.new ≡ filter (λ s. not (same_tag t s)) tags.old }
{
    let mut kept = 0;
    for at in 0..tags.len() {
        let s = tags[at];
        if !same_tag(&t, &s) {
            tags[kept] = s;
            kept += 1;
        }
    }
    tags.truncate(kept);
}

/// Writes into a body. After want of memory it is as it was.
pub fn apply(body: &mut Body, edit: Edit) -> Result<(), AllocError>
    requires { FitsMask edit }
    ensures ok { OnOk result (body.new ≡ edited edit body.old) }
    ensures cells { length body.new.cells ≡ length body.old.cells }
    ensures err { OnErr result (body.new ≡ body.old) }
{
    match edit {
        Edit::Cell(n, x) => {
            if n < body.cells.len() {
                body.cells[n] = x;
            }
        }
        Edit::Flag(flag, on) => body.flags = with_flag(body.flags, flag, on),
        Edit::Bind(t) => body.tags.push(t)?,
        Edit::Unbind(t) => close_up(&mut body.tags, t),
    }
    Ok(())
}
