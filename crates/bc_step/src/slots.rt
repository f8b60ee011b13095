// The slots and tag variables of a new call.

ghost use Rattle.std.specs.Prelude.{◌≡◌, ◌-◌, ◌^◌, ◌<◌, ◌∷◌, ◌++◌, pos, length, replicate, take, map, OnOk, OnErr};
ghost use Rattle.bc_data.specs.declared.run.Value.TheVariants as value;
ghost use Rattle.bc_data.specs.declared.run.TagRef.TheVariants as tag;

use bc_data::run::{TagRef, Value};
use std::alloc::AllocError;

/// So many more elements of one value. On `Err` the list is as it was.
#[inline]
pub(crate) fn pad<T: Copy>(list: &mut Vec<T>, missing: usize, x: T) -> Result<(), AllocError>
    requires { missing < 2 ^ 32 }
    ensures ok { OnOk result (list.new.items ≡ list.old.items ++ replicate missing x) }
    ensures err { OnErr result (list.new.items ≡ list.old.items) }
{
    list.resize(list.len() + missing, x)
}

#[inline]
fn append(
    slots: &mut Vec<Value>,
    object: Value,
    arguments: &[Value],
    locals: u32,
) -> Result<(), AllocError>
    ensures ok { OnOk result (slots.new.items ≡ slots.old.items
        ++ ((object ∷ arguments.now) ++ replicate (locals - length (object ∷ arguments.now)) (value.Int (pos 0)))) }
    ensures err { OnErr result (take (length slots.old.items) slots.new.items ≡ slots.old.items) }
{
    slots.push(object)?;
    slots.extend_from_slice(arguments)?;
    let given = arguments.len() + 1;
    pad(
        slots,
        (locals as usize).saturating_sub(given),
        Value::Int(0),
    )?;
    Ok(())
}

/// Appends the slots of a call: the object, the arguments, and zeros. On `Err` the slots are as they were.
#[inline]
pub(crate) fn fill(
    slots: &mut Vec<Value>,
    object: Value,
    arguments: &[Value],
    locals: u32,
) -> Result<(), AllocError>
    ensures ok { OnOk result (slots.new.items ≡ slots.old.items
        ++ ((object ∷ arguments.now) ++ replicate (locals - length (object ∷ arguments.now)) (value.Int (pos 0)))) }
    ensures err { OnErr result (slots.new.items ≡ slots.old.items) }
{
    let base = slots.len();
    match append(slots, object, arguments, locals) {
        Ok(()) => Ok(()),
        Err(error) => {
            slots.truncate(base);
            Err(error)
        }
    }
}

/// Appends the objects of the store with these numbers.
pub(crate) fn push_objects(slots: &mut Vec<Value>, ids: &[u32]) -> Result<(), AllocError>
    ensures { OnOk result (slots.new.items ≡ slots.old.items ++ map value.Old ids.now) }
{
    slots.extend(ids.iter().map(|id| Value::Old(*id)))
}

/// Appends the tag instances of the store with these numbers.
pub(crate) fn push_tags(tags: &mut Vec<TagRef>, ids: &[u32]) -> Result<(), AllocError>
    ensures { OnOk result (tags.new.items ≡ tags.old.items ++ map tag.Old ids.now) }
{
    tags.extend(ids.iter().map(|id| TagRef::Old(*id)))
}
