//! The canonical text of a tree is read as that tree.
#![tactic(auto)]

ghost use Rattle.bc_print.specs.Laws.{IsReadBack};

/// The canonical text of a tree that the grammar gives to some text has tokens, and these spell that tree, apart from
/// places.
pub fn reads_back()
    ensures { IsReadBack }
{}
