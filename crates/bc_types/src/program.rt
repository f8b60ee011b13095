// Whole programs.

ghost use Rattle.bc_data.specs.View.{view_tree};
ghost use Rattle.bc_types_rules.specs.Walk.{check};
ghost use Rattle.bc_law_accepted.specs.Laws.{IsGrammatical};
ghost use Rattle.bc_names.specs.Answers.{Answers};

use crate::types::types_of;
use crate::walk::walk;
use bc_data::program::Program;
use bc_data::tree::Tree;
use bc_names::{TypeFault, number};
use bc_types_expr::Table;
use std::alloc::Global;

/// The program of a tree that the grammar gives to some text, or the tree's first fault. The names come first, and then
/// what stands under them, both in the order of the text.
pub fn check(alloc: Global, tree: &Tree) -> Result<Program, TypeFault>
    requires { IsGrammatical (view_tree tree.now) }
    ensures { Answers result (λ p. p) (check (view_tree tree.now)) }
{
    let names = number(alloc, tree)?;
    let types = types_of(alloc, &names, &tree.items)?;
    let table = Table { names, types };
    let parts = walk(alloc, &table, &tree.items)?;
    Ok(parts.into_program())
}
