// What a class declares.

ghost use Rattle.std.specs.Prelude.{◌≡◌};
ghost use Rattle.bc_types_rules.specs.Numbering.{declare_maker, declare_member, no_members, startup_members, number_of, try_fold};
ghost use Rattle.bc_types_rules.specs.Got.{Gives};
ghost use Rattle.bc_data.specs.SourceTree.{Empty};
ghost use Rattle.bc_data.specs.View.{onto_by, view_member};
ghost use Rattle.bc_names.specs.Answers.{Answers};

use crate::fault::{TypeFault, TypeKind};
use crate::space::Space;
use bc_data::tree::{Member, Named};
use std::alloc::Global;
use std::marker::Model;

const MOST_FLAGS: usize = 32;

const MOST_FIELDS: usize = 256;

const MOST_METHODS: usize = 256;

/// What a class declares.
#[derive(Drop)]
pub struct Members {
    flags: Space,
    fields: Space,
    methods: Space,
    has_maker: bool,
}

impl Model for Members {
    ghost use Rattle.bc_types_rules.specs.Numbering as numbering;

    ghost Value = { numbering.Members };

    ghost view = { λ m. record { flags = m.flags; fields = m.fields; methods = m.methods; has_maker = m.has_maker } };
}

impl Members {
    /// A class that declares nothing.
    pub fn new(alloc: Global) -> Self
        ensures { result ≡ no_members }
    {
        Members {
            flags: Space::new(alloc),
            fields: Space::new(alloc),
            methods: Space::new(alloc),
            has_maker: false,
        }
    }

    /// What the class that every program has declares.
    pub fn of_startup(alloc: Global) -> Result<Self, TypeFault>
        ensures { Answers result (λ m. m) (Gives startup_members) }
    {
        let mut members = Members::new(alloc);
        members.flags.add(alloc, b"initialstate")?;
        members.fields.add(alloc, b"input")?;
        Ok(members)
    }

    /// The number of a flag.
    pub fn flag(&self, name: &[u8]) -> Option<u32>
        ensures { result ≡ number_of self.now.flags name.now }
    {
        self.flags.number(name)
    }

    /// The number of a field.
    pub fn field(&self, name: &[u8]) -> Option<u32>
        ensures { result ≡ number_of self.now.fields name.now }
    {
        self.fields.number(name)
    }

    /// The number of a method.
    pub fn method(&self, name: &[u8]) -> Option<u32>
        ensures { result ≡ number_of self.now.methods name.now }
    {
        self.methods.number(name)
    }

    /// Declares a constructor. A class has one, whatever its name is.
    fn declare_maker(&mut self, name: &Named) -> Result<(), TypeFault>
        ensures { Answers result (λ _. self.new) (declare_maker self.old name.now) }
    {
        if self.has_maker {
            return Err(TypeFault::Refused {
                kind: TypeKind::Twice,
                at: name.at,
            });
        }
        self.has_maker = true;
        Ok(())
    }

    /// Declares a member.
    pub fn declare(&mut self, alloc: Global, member: &Member) -> Result<(), TypeFault>
        ensures { Answers result (λ _. self.new) (declare_member self.old (view_member member.now)) }
    {
        match member {
            Member::Flag(x) => self.flags.declare(alloc, MOST_FLAGS, x),
            Member::Field(x) => self.fields.declare(alloc, MOST_FIELDS, &x.name),
            Member::Method(m) => self.methods.declare(alloc, MOST_METHODS, &m.name),
            Member::Maker(m) => self.declare_maker(&m.name),
        }
    }
}

/// What a class with these members declares.
pub fn members_of(alloc: Global, members: &[Member]) -> Result<Members, TypeFault>
    ensures { Answers result (λ m. m) (try_fold declare_member no_members (onto_by view_member members.now Empty)) }
{
    let mut declared = Members::new(alloc);
    for member in members {
        declared.declare(alloc, member)?;
    }
    Ok(declared)
}
