// What a program declares.

ghost use Rattle.std.specs.Prelude.{◌≡◌};
ghost use Rattle.bc_data.specs.SourceTree.{Empty};
ghost use Rattle.bc_data.specs.View.{onto_by, view_member, view_text_item, view_tree};
ghost use Rattle.bc_types_rules.specs.Got.{Gives};
ghost use Rattle.bc_types_rules.specs.Numbering.{declare_class, declare_item, member_number, number_of, numbering, startup_spaces, try_fold};
ghost use Rattle.bc_names.specs.Answers.{Answers};

use crate::fault::TypeFault;
use crate::members::{Members, members_of};
use crate::space::Space;
use bc_data::tree::{ClassText, Item, Tree};
use std::alloc::Global;
use std::marker::Model;

const MOST_CLASSES: usize = 256;

const MOST_TAG_TYPES: usize = 64;

const MOST_TASKS: usize = 256;

/// The numbers of a program's names. Each kind is numbered from 0 in the order of the declarations; class 0 is
/// `StartupObject`.
#[derive(Drop)]
pub struct Names {
    classes: Space,
    members: Vec<Members>,
    tag_types: Space,
    tasks: Space,
}

impl Model for Names {
    ghost use Rattle.bc_types_rules.specs.Numbering.{Spaces};

    ghost Value = { Spaces };

    ghost view = { λ n. record { classes = n.classes; members = n.members.items; tag_types = n.tag_types; tasks = n.tasks } };
}

impl Names {
    /// The names that each program has.
    pub(crate) fn of_startup(alloc: Global) -> Result<Self, TypeFault>
        ensures { Answers result (λ n. n) (Gives startup_spaces) }
    {
        let mut classes = Space::new(alloc);
        classes.add(alloc, b"StartupObject")?;
        let mut members = Vec::new(alloc);
        members.push(Members::of_startup(alloc)?)?;
        Ok(Names {
            classes,
            members,
            tag_types: Space::new(alloc),
            tasks: Space::new(alloc),
        })
    }

    /// Declares a class and its members.
    fn declare_class(&mut self, alloc: Global, class: &ClassText) -> Result<(), TypeFault>
        ensures { Answers result (λ _. self.new)
            (declare_class self.old class.now.name (onto_by view_member class.now.members.items Empty)) }
    {
        self.classes.declare(alloc, MOST_CLASSES, &class.name)?;
        let members = members_of(alloc, &class.members)?;
        self.members.push(members)?;
        Ok(())
    }

    /// Declares what an item declares.
    pub(crate) fn declare(&mut self, alloc: Global, item: &Item) -> Result<(), TypeFault>
        ensures { Answers result (λ _. self.new) (declare_item self.old (view_text_item item.now)) }
    {
        match item {
            Item::TagType(x) => self.tag_types.declare(alloc, MOST_TAG_TYPES, x),
            Item::Class(class) => self.declare_class(alloc, class),
            Item::Task(task) => self.tasks.declare(alloc, MOST_TASKS, &task.name),
        }
    }

    /// The number of a class.
    pub fn class(&self, name: &[u8]) -> Option<u32>
        ensures { result ≡ number_of self.now.classes name.now }
    {
        self.classes.number(name)
    }

    /// The number of a field of a class.
    pub fn field(&self, class: u32, name: &[u8]) -> Option<u32>
        ensures { result ≡ member_number (λ m. m.fields) self.now class name.now }
    {
        self.members.get(class as usize)?.field(name)
    }

    /// The number of a method of a class.
    pub fn method(&self, class: u32, name: &[u8]) -> Option<u32>
        ensures { result ≡ member_number (λ m. m.methods) self.now class name.now }
    {
        self.members.get(class as usize)?.method(name)
    }

    /// The number of a flag of a class.
    pub fn flag(&self, class: u32, name: &[u8]) -> Option<u32>
        ensures { result ≡ member_number (λ m. m.flags) self.now class name.now }
    {
        self.members.get(class as usize)?.flag(name)
    }

    /// The number of a tag type.
    pub fn tag_type(&self, name: &[u8]) -> Option<u32>
        ensures { result ≡ number_of self.now.tag_types name.now }
    {
        self.tag_types.number(name)
    }

    /// The number of a task.
    pub fn task(&self, name: &[u8]) -> Option<u32>
        ensures { result ≡ number_of self.now.tasks name.now }
    {
        self.tasks.number(name)
    }
}

/// The names that a program with these items has.
fn names_of(alloc: Global, items: &[Item]) -> Result<Names, TypeFault>
    ensures { Answers result (λ names. names)
        (try_fold declare_item startup_spaces (onto_by view_text_item items.now Empty)) }
{
    let mut names = Names::of_startup(alloc)?;
    for item in items {
        names.declare(alloc, item)?;
    }
    Ok(names)
}

/// The numbers of a program's names, or the first name that its space has already (`Twice`) or that is one too many
/// (`TooMany`). Items and members are taken in the order of the text.
pub fn number(alloc: Global, tree: &Tree) -> Result<Names, TypeFault>
    ensures { Answers result (λ names. names) (numbering (view_tree tree.now)) }
{
    names_of(alloc, &tree.items)
}
