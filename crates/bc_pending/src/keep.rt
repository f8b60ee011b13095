// A test of invocations.

ghost use Rattle.std.specs.Prelude.{◌≡◌, Bool};
ghost use Rattle.bc_data.specs.declared.run.Invocation.{Invocation};

use bc_data::run::Invocation;

/// A test that says which invocations stay.
pub trait Keep {
    ghost keeps: { Self → Invocation → Bool };

    /// Whether the invocation stays.
    fn keep(&self, v: Invocation) -> bool
        ensures { result ≡ keeps self.now v };
}
