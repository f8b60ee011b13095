// Items in the order of the text.

ghost use Rattle.std.specs.Prelude.{◌≡◌, ◌≤◌, IfOk, length};
ghost use Rattle.bc_data.specs.SourceTree.{ClassItem, Empty};
ghost use Rattle.bc_data.specs.View.{onto_by, view_member, view_text_item};
ghost use Rattle.bc_types_rules.specs.Got.{Gives};
ghost use Rattle.bc_types_rules.specs.Numbering.{numbering};
ghost use Rattle.bc_data.specs.WellTyped.{IsWellTyped};
ghost use Rattle.bc_types_rules.specs.Walk.{check_item, startup_program, walk};
ghost use Rattle.bc_names.specs.Answers.{Answers};
ghost use Rattle.bc_types_expr.specs.Looks.{looks};
ghost use Rattle.bc_types.specs.Parts.{parts_seen};

use crate::class::{check_class, startup_class};
use bc_data::list::Bytes;
use bc_data::program::{Class, Program, Task};
use bc_data::tree::{ClassText, Item};
use bc_names::TypeFault;
use bc_types_expr::Table;
use bc_types_stat::task;
use std::alloc::{AllocError, Global};

/// The parts of a program as far as it is checked.
#[derive(Drop)]
pub struct Parts {
    classes: Vec<Class>,
    tag_types: Vec<Bytes>,
    tasks: Vec<Task>,
}

impl Parts {
    /// Those that every program has.
    fn of_startup(alloc: Global) -> Result<Self, AllocError>
        ensures { IfOk result (λ p. parts_seen p ≡ startup_program) }
    {
        let mut classes = Vec::new(alloc);
        classes.push(startup_class(alloc)?)?;
        Ok(Parts {
            classes,
            tag_types: Vec::new(alloc),
            tasks: Vec::new(alloc),
        })
    }

    /// Adds a class. It has the number of those before it.
    fn add_class(&mut self, alloc: Global, table: &Table, x: &ClassText) -> Result<(), TypeFault>
        requires { length self.old.classes.items ≤ 256 }
        ensures { Answers result (λ _. parts_seen self.new) (check_item (looks table.now) (parts_seen self.old) (ClassItem x.now.name (onto_by view_member x.now.members.items Empty))) }
    {
        let me = self.classes.len() as u32;
        let class = check_class(alloc, table, me, x)?;
        self.classes.push(class)?;
        Ok(())
    }

    /// Adds an item.
    fn add(&mut self, alloc: Global, table: &Table, item: &Item) -> Result<(), TypeFault>
        requires { length self.old.classes.items ≤ 256 }
        ensures { Answers result (λ _. parts_seen self.new) (check_item (looks table.now) (parts_seen self.old) (view_text_item item.now)) }
    {
        match item {
            Item::TagType(x) => {
                let name = Bytes::from_slice(alloc, x.name.as_slice())?;
                self.tag_types.push(name)?;
            }
            Item::Class(x) => self.add_class(alloc, table, x)?,
            Item::Task(x) => {
                let checked = task(alloc, table, x)?;
                self.tasks.push(checked)?;
            }
        }
        Ok(())
    }

    /// The program with these parts.
    pub fn into_program(self) -> Program
        requires { IsWellTyped (parts_seen self) }
        ensures { result ≡ parts_seen self }
    {
        let Parts {
            classes,
            tag_types,
            tasks,
        } = self;
        Program::new(classes, tag_types, tasks)
    }
}

/// The parts of the program of these items, whose names are those of the table, or the first fault behind the names.
pub fn walk(alloc: Global, table: &Table, items: &[Item]) -> Result<Parts, TypeFault>
    requires numbered { numbering (onto_by view_text_item items.now Empty) ≡ Gives table.now.names }
    ensures { Answers result parts_seen (walk (looks table.now) (onto_by view_text_item items.now Empty)) }
{
    let mut parts = Parts::of_startup(alloc)?;
    for item in items {
        parts.add(alloc, table, item)?;
    }
    Ok(parts)
}
