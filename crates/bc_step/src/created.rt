// The objects that an invocation made.

ghost use Rattle.std.specs.Prelude.{◌≡◌, ◌<◌, [], length, slice_get, slice_set, option_copied, IfOk, OnOk, OnErr};
ghost use Rattle.bc_data.specs.declared.run.Body.{Body};
ghost use Rattle.bc_mean.specs.Store.{cells_in};
ghost use Rattle.bc_step.specs.Area.{FitsMask, edited};
ghost use Rattle.bc_step.specs.Created.{Makes};

use crate::body::{Edit, apply};
use bc_data::list::List;
use bc_data::run::Body;
use std::alloc::{AllocError, Global};
use std::marker::Model;

/// An invocation makes at most so many objects.
const MOST_OBJECTS: usize = 65_536;

/// They have at most so many cells together.
const MOST_CELLS: usize = 4_194_304;

/// The objects that an invocation made, in order, and the number of their cells together.
#[derive(Drop)]
pub struct Created {
    made: List<Body>,
    cells: usize,
}

impl Model for Created {
    ghost use Rattle.std.specs.Prelude.{◌≡◌, ◌≤◌, List};
    ghost use Rattle.bc_data.specs.declared.run.Body.{Body};
    ghost use Rattle.bc_mean.specs.Store.{cells_in};

    ghost Value = { List Body };

    ghost view = { λ c. c.made };

    ghost invariant = { λ c. (c.cells ≡ cells_in c.made) × (c.cells ≤ 4194304) };
}

/// Writes into one of the bodies. After want of memory they are as they were.
fn edit_at(made: &mut List<Body>, n: usize, edit: Edit) -> Result<(), AllocError>
    requires there { n < length made.old }
    requires fits { FitsMask edit }
    ensures ok { OnOk result ((b : Body)
        → slice_get made.old n ≡ Some b → made.new ≡ slice_set made.old n (edited edit b)) }
    ensures cells { cells_in made.new ≡ cells_in made.old }
    ensures err { OnErr result (made.new ≡ made.old) }
{
    apply(&mut made[n], edit)
}

impl Created {
    /// None.
    pub fn new(alloc: Global) -> Self
        ensures { result ≡ [] }
    {
        Created {
            made: List::new(alloc),
            cells: 0,
        }
    }

    /// The body of an object, if it was made.
    #[inline]
    pub fn get(&self, n: u32) -> Option<&Body>
        ensures { option_copied result ≡ slice_get self.now n }
    {
        self.made.get(n as usize)
    }

    /// Appends an object and gives its number, or gives `None` where there is no room for it. After want of memory
    /// they are as they were.
    pub fn make(&mut self, body: Body) -> Result<Option<u32>, AllocError>
        ensures ok { IfOk result (λ n. Makes n body self.old self.new) }
        ensures err { OnErr result (self.new ≡ self.old) }
    {
        let n = self.made.len();
        let cells = body.cells.len();
        if n >= MOST_OBJECTS || cells > MOST_CELLS - self.cells {
            return Ok(None);
        }
        self.made.push(body)?;
        self.cells += cells;
        Ok(Some(n as u32))
    }

    /// Writes into the body of an object. After want of memory it is as it was.
    pub fn edit(&mut self, n: u32, edit: Edit) -> Result<(), AllocError>
        requires there { n < length self.old }
        requires fits { FitsMask edit }
        ensures ok { OnOk result ((b : Body)
            → slice_get self.old n ≡ Some b → self.new ≡ slice_set self.old n (edited edit b)) }
        ensures err { OnErr result (self.new ≡ self.old) }
    {
        edit_at(&mut self.made, n as usize, edit)
    }

    /// Takes all of them out.
    pub fn clear(&mut self)
        ensures { self.new ≡ [] }
    {
        self.made.clear();
        self.cells = 0;
    }

    /// A copy of their bodies.
    pub fn copy(&self, alloc: Global) -> Result<List<Body>, AllocError>
        ensures { IfOk result (λ l. l ≡ self.now) }
    {
        self.made.copy(alloc)
    }
}
