// The names that a task's parameters declare.

ghost use Rattle.std.specs.Prelude.{◌≡◌, ◌<◌, IfOk, OnOk, option_map};
ghost use Rattle.std.specs.List.{filter_map};
ghost use Rattle.bc_types_rules.specs.Bodies.{type_of_tag};
ghost use Rattle.bc_types_rules.specs.Context.{meaning_of, task_scope, with_parameter};
ghost use Rattle.bc_names.specs.Answers.{Answers};
ghost use Rattle.bc_types_expr.specs.Scopes.{declare_variable, may_be_parameter, meaning_seen};

use bc_data::tree::Named;
use bc_names::TypeFault;
use bc_types_expr::{Meaning, Scope};
use std::alloc::{AllocError, Global};
use std::marker::Model;

/// The scope of a task's parameters, with the types of the tag variables that they bind. Contracts see the scope.
#[derive(Drop)]
pub struct TaskScope {
    scope: Scope,
    types: Vec<u32>,
}

impl Model for TaskScope {
    ghost use Rattle.std.specs.Prelude.{◌≡◌, ◌≤◌};
    ghost use Rattle.std.specs.List.{filter_map};
    ghost use Rattle.bc_types_rules.specs.Bodies.{type_of_tag};
    ghost use Rattle.bc_types_rules.specs.Context as rules;

    ghost Value = { rules.Scope };

    ghost view = { λ s. s.scope };

    ghost invariant = { λ s. (s.types.items ≡ filter_map type_of_tag s.scope.known) × (s.scope.slots ≤ 4) × (s.scope.tags ≤ 4) };
}

impl TaskScope {
    /// The scope without names.
    pub fn new(alloc: Global) -> Self
        ensures { result ≡ task_scope }
    {
        TaskScope {
            scope: Scope::of_task(alloc),
            types: Vec::new(alloc),
        }
    }

    /// The next tag variable.
    pub fn tags(&self) -> u32
        ensures { result ≡ self.now.tags }
    {
        self.scope.tags()
    }

    /// What a name is, if it is in scope.
    pub fn find(&self, x: &Named) -> Option<Meaning>
        ensures { option_map meaning_seen result ≡ meaning_of self.now x.now }
    {
        self.scope.find(x)
    }

    /// Whether a name may be that of the next parameter.
    pub fn check_parameter(&self, x: &Named) -> Result<(), TypeFault>
        ensures answers { Answers result (λ _. tt) (may_be_parameter self.now x.now) }
        ensures room { OnOk result (self.now.slots < 4) }
    {
        self.scope.check_parameter(x)
    }

    /// Brings the next parameter into scope.
    pub fn with_parameter(self, alloc: Global, x: &Named, class: u32) -> Result<Self, AllocError>
        requires { self.slots < 4 }
        ensures { IfOk result (λ s. s ≡ with_parameter self x.now class) }
    {
        let TaskScope { mut scope, types } = self;
        scope.add_parameter(alloc, x, class)?;
        Ok(TaskScope { scope, types })
    }

    /// Declares a tag variable. The fifth is one too many.
    pub fn with_variable(self, alloc: Global, x: &Named, tag_type: u32) -> Result<Self, TypeFault>
        ensures { Answers result (λ s. s) (declare_variable self x.now tag_type) }
    {
        let TaskScope {
            mut scope,
            mut types,
        } = self;
        scope.declare_variable(alloc, x, tag_type)?;
        types.push(tag_type)?;
        Ok(TaskScope { scope, types })
    }

    /// The scope, and the types of its tag variables.
    pub fn into_parts(self) -> (Scope, Vec<u32>)
        ensures scope { result.0 ≡ self }
        ensures types { result.1.items ≡ filter_map type_of_tag self.known }
    {
        let TaskScope { scope, types } = self;
        (scope, types)
    }
}
