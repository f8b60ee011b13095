// Names in scope.

ghost use Rattle.std.specs.Prelude.{◌≡◌, ◌++◌, ◌∷◌, [], ◌<◌, ◌≤◌, ◌+◌, length, OnOk, option_map};
ghost use Rattle.bc_types_rules.specs.Context.{declare_slot, declare_tag, find_in, is_free, may_declare, meaning_of, method_scope, task_scope, with_parameter, with_slot, with_tag};
ghost use Rattle.bc_names.specs.Answers.{Answers};
ghost use Rattle.bc_types_expr.specs.Scopes.{declare_formal, declare_variable, may_be_parameter, known_seen, meaning_seen, named_as, with_first};

use crate::ask::ask_for;
use bc_data::list::Bytes;
use bc_data::program::Shape;
use bc_data::tree::Named;
use bc_names::{TypeFault, TypeKind};
use std::alloc::{AllocError, Global};
use std::marker::Model;

const MOST_NAMES: u32 = 256;

const MOST_FORMALS: u32 = 16;

const MOST_PARAMETERS: u32 = 4;

const MOST_VARIABLES: u32 = 4;

/// What a name in scope is. The parameter of a task, with its class, is a slot too.
#[derive(Clone, Copy)]
pub enum Meaning {
    Slot(u32, Shape),
    Parameter(u32, u32),
    Tag(u32, u32),
}

#[derive(Drop)]
pub struct InScope {
    pub name: Bytes,
    pub meaning: Meaning,
}

/// The names in scope, the next slot, the next tag variable, and how many names the body has declared so far.
#[derive(Drop)]
pub struct Scope {
    known: Vec<InScope>,
    slots: u32,
    tags: u32,
    count: u32,
}

impl Model for Scope {
    ghost use Rattle.std.specs.Prelude.{◌≤◌, ◌+◌};
    ghost use Rattle.bc_types_rules.specs.Context as rules;
    ghost use Rattle.bc_types_expr.specs.Scopes.{declare_formal, declare_variable, may_be_parameter, known_seen};

    ghost Value = { rules.Scope };

    ghost view = { λ s. record { known = known_seen s.known.items; slots = s.slots; tags = s.tags; count = s.count } };

    ghost invariant = { λ s. (s.slots ≤ s.count + 1) × (s.tags ≤ s.count) × (s.count ≤ s.slots + s.tags) × (s.count ≤ 256) };
}

fn find_name(known: &[InScope], name: &[u8]) -> Option<Meaning>
    ensures { option_map meaning_seen result ≡ find_in (known_seen known.now) name.now }
{
    for l in known {
        if name == l.name.as_slice() {
            return Some(l.meaning);
        }
    }
    None
}

fn push_name(
    alloc: Global,
    known: &mut Vec<InScope>,
    x: &Named,
    meaning: Meaning,
) -> Result<(), AllocError>
    ensures { OnOk result (known_seen known.new.items ≡ known_seen known.old.items ++ named_as x.now (meaning_seen meaning) ∷ []) }
{
    let name = Bytes::from_slice(alloc, x.name.as_slice())?;
    known.push(InScope { name, meaning })?;
    Ok(())
}

impl Scope {
    /// The scope of a method or a constructor, whose slot 0 is `this`.
    pub fn of_method(alloc: Global) -> Self
        ensures { result ≡ method_scope }
    {
        Scope {
            known: Vec::new(alloc),
            slots: 1,
            tags: 0,
            count: 0,
        }
    }

    /// The scope of a task.
    pub fn of_task(alloc: Global) -> Self
        ensures { result ≡ task_scope }
    {
        Scope {
            known: Vec::new(alloc),
            slots: 0,
            tags: 0,
            count: 0,
        }
    }

    /// The next slot, which is how many there are.
    pub fn slots(&self) -> u32
        ensures { result ≡ self.now.slots }
    {
        self.slots
    }

    /// The next tag variable, which is how many there are.
    pub fn tags(&self) -> u32
        ensures { result ≡ self.now.tags }
    {
        self.tags
    }

    /// How many names were declared, those of ended blocks among them.
    pub fn count(&self) -> u32
        ensures { result ≡ self.now.count }
    {
        self.count
    }

    /// What a name is, if it is in scope.
    pub fn find(&self, x: &Named) -> Option<Meaning>
        ensures { option_map meaning_seen result ≡ meaning_of self.now x.now }
    {
        find_name(&self.known, x.name.as_slice())
    }

    /// Whether a name isn't in scope.
    pub fn is_free(&self, x: &Named) -> bool
        ensures { result ≡ is_free self.now x.now }
    {
        self.find(x).is_none()
    }

    /// How many names are in scope.
    pub fn len(&self) -> usize
        ensures { result ≡ length self.now.known }
    {
        self.known.len()
    }

    /// Ends a block: only so many names stay in scope. Slots and tag variables aren't used again.
    pub fn end_block(&mut self, before: usize)
        ensures { self.new ≡ with_first before self.old }
    {
        self.known.truncate(before);
    }

    /// Brings the next slot into scope.
    fn add_slot(&mut self, alloc: Global, x: &Named, shape: Shape) -> Result<(), AllocError>
        requires { self.old.count < 256 }
        ensures { OnOk result (self.new ≡ with_slot self.old x.now shape) }
    {
        let meaning = Meaning::Slot(self.slots, shape);
        push_name(alloc, &mut self.known, x, meaning)?;
        self.slots += 1;
        self.count += 1;
        Ok(())
    }

    /// Brings the next tag variable into scope.
    fn add_tag(&mut self, alloc: Global, x: &Named, tag_type: u32) -> Result<(), AllocError>
        requires { self.old.count < 256 }
        ensures { OnOk result (self.new ≡ with_tag self.old x.now tag_type) }
    {
        let meaning = Meaning::Tag(self.tags, tag_type);
        push_name(alloc, &mut self.known, x, meaning)?;
        self.tags += 1;
        self.count += 1;
        Ok(())
    }

    /// Whether a body may declare a name.
    fn check_name(&self, x: &Named) -> Result<(), TypeFault>
        ensures answers { Answers result (λ _. tt) (may_declare self.now x.now) }
        ensures room { OnOk result (self.now.count < 256) }
    {
        ask_for(self.is_free(x), TypeKind::Twice, x.at)?;
        ask_for(self.count < MOST_NAMES, TypeKind::TooMany, x.at)
    }

    /// Declares a local variable.
    pub fn declare_slot(&mut self, alloc: Global, x: &Named, shape: Shape) -> Result<(), TypeFault>
        ensures { Answers result (λ _. self.new) (declare_slot self.old x.now shape) }
    {
        self.check_name(x)?;
        self.add_slot(alloc, x, shape)?;
        Ok(())
    }

    /// Declares a tag variable.
    pub fn declare_tag(&mut self, alloc: Global, x: &Named, tag_type: u32) -> Result<(), TypeFault>
        ensures { Answers result (λ _. self.new) (declare_tag self.old x.now tag_type) }
    {
        self.check_name(x)?;
        self.add_tag(alloc, x, tag_type)?;
        Ok(())
    }

    /// Declares a formal of a method. The seventeenth is one too many.
    pub fn declare_formal(
        &mut self,
        alloc: Global,
        x: &Named,
        shape: Shape,
    ) -> Result<(), TypeFault>
        ensures { Answers result (λ _. self.new) (declare_formal self.old x.now shape) }
    {
        ask_for(self.is_free(x), TypeKind::Twice, x.at)?;
        ask_for(self.count < MOST_FORMALS, TypeKind::TooMany, x.at)?;
        self.add_slot(alloc, x, shape)?;
        Ok(())
    }

    /// Whether a name may be that of a task's next parameter. The fifth is one too many.
    pub fn check_parameter(&self, x: &Named) -> Result<(), TypeFault>
        ensures answers { Answers result (λ _. tt) (may_be_parameter self.now x.now) }
        ensures room { OnOk result (self.now.slots < 4) }
    {
        ask_for(self.is_free(x), TypeKind::Twice, x.at)?;
        ask_for(self.slots < MOST_PARAMETERS, TypeKind::TooMany, x.at)
    }

    /// Brings a task's next parameter into scope.
    pub fn add_parameter(&mut self, alloc: Global, x: &Named, class: u32) -> Result<(), AllocError>
        requires few_slots { self.old.slots < 4 }
        requires few_tags { self.old.tags ≤ 4 }
        ensures { OnOk result (self.new ≡ with_parameter self.old x.now class) }
    {
        let meaning = Meaning::Parameter(self.slots, class);
        push_name(alloc, &mut self.known, x, meaning)?;
        self.slots += 1;
        self.count += 1;
        Ok(())
    }

    /// Declares a tag variable that a task's parameter binds. The fifth is one too many.
    pub fn declare_variable(
        &mut self,
        alloc: Global,
        x: &Named,
        tag_type: u32,
    ) -> Result<(), TypeFault>
        requires { self.old.slots ≤ 4 }
        ensures { Answers result (λ _. self.new) (declare_variable self.old x.now tag_type) }
    {
        ask_for(self.tags < MOST_VARIABLES, TypeKind::TooMany, x.at)?;
        self.add_tag(alloc, x, tag_type)?;
        Ok(())
    }
}
