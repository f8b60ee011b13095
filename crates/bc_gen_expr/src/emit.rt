// Appending to a unit.

ghost use Rattle.std.specs.Prelude.{◌≡◌, ◌+◌, ◌<◌, length, OnOk};
ghost use Rattle.bc_code.specs.Emitted.{Emitted, IsGrowing};
ghost use Rattle.bc_code.specs.Translation.{At};
ghost use Rattle.bc_gen_expr.specs.Written.{written};

use bc_code::code::{Instruction, Unit};
use bc_data::run::Place;
use std::alloc::AllocError;

/// The place of an instruction that meets no fault.
pub const NOWHERE: Place = Place { line: 0, column: 0 };

const MOST_INSTRUCTIONS: usize = 4_294_967_295;

/// Appends an instruction and the place of the fault that it may meet. A unit has at most 4,294,967,295 instructions, and one
/// more counts as want of memory.
#[tactic(auto, unfolding(bc_code::specs::Translation::most_instructions))]
pub fn put(out: &mut Unit, instruction: Instruction, at: Place) -> Result<(), AllocError>
    requires { IsGrowing out.old }
    ensures { OnOk result (Emitted (λ T p. At T p instruction at) (λ p. p + 1) out.old out.new) }
{
    if out.code.len() >= MOST_INSTRUCTIONS {
        return Err(AllocError);
    }
    out.code.push(instruction)?;
    out.places.push(at)?;
    Ok(())
}

/// The number of the instruction that is appended next.
#[tactic(auto, unfolding(bc_code::specs::Translation::most_instructions))]
pub fn position(out: &Unit) -> u32
    requires { IsGrowing out.now }
    ensures { result ≡ length out.now.code }
{
    out.code.len() as u32
}

/// Puts another instruction in the place of one: a jump whose goal is now known.
pub fn write_back(out: &mut Unit, index: u32, instruction: Instruction)
    requires { index < length out.old.code }
    ensures { out.new ≡ written out.old index instruction }
{
    out.code[index as usize] = instruction;
}
