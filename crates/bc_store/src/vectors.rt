// Sums over bodies, and vectors that grow where there is room.

ghost use Rattle.std.specs.Prelude.{◌≡◌, ◌+◌, ◌-◌, ◌^◌, ◌<◌, ◌≤◌, ◌++◌, length, min, All, vec_len, vec_capacity};
ghost use Rattle.bc_mean.specs.Commit.{placed};
ghost use Rattle.bc_mean.specs.Store.{cells_in};

use bc_data::list::List;
use bc_data::run::{Body, Written};

/// The cells of these bodies together, or the greatest number where there are more.
pub fn cells_of(bodies: &[Body]) -> usize
    ensures { result ≡ min (cells_in bodies.now) (2 ^ 64 - 1) }
{
    let mut sum = 0_usize;
    for body in bodies {
        sum = sum.saturating_add(body.cells.len());
    }
    sum
}

/// Puts bodies in their objects' places.
pub fn place(bodies: &mut Vec<Body>, changed: List<Written>)
    requires { All (λ w. w.id < length bodies.old.items) changed }
    ensures items { bodies.new.items ≡ placed changed bodies.old.items }
    ensures len { vec_len bodies.new ≡ vec_len bodies.old }
    ensures capacity { vec_capacity bodies.new ≡ vec_capacity bodies.old }
{
    for written in changed {
        bodies[written.id as usize] = written.body;
    }
}

/// Appends the elements of a list where there is room for them.
pub fn append_in<T: Drop>(items: &mut Vec<T>, more: List<T>)
    requires { vec_len items.old + length more ≤ vec_capacity items.old }
    ensures items { items.new.items ≡ items.old.items ++ more }
    ensures len { vec_len items.new ≡ vec_len items.old + length more }
    ensures capacity { vec_capacity items.old ≤ vec_capacity items.new }
{
    let mut more = more.into_vec();
    let _ = items.append(&mut more);
}
