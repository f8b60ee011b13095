// Laws of the top call's statuses. Each function is a statement that its contract proves, and does nothing.

ghost use Rattle.bc_commands.specs.Statuses.{StatusIsItsCause, FaultsRaiseCounts};

use bc_law_grammar::{one_tree, tree_or_refused};
use bc_lex::laws::{not_both, one_list};
use bc_types_rules::laws::{accepts_is_program, program_or_fault};

/// Where the shelf and the source tell their bytes, no count of faults rose and memory sufficed, each status comes
/// exactly where its cause is: 2 where the words are no command's, 8 where the file or the input that is read is too
/// long, 1 where the text is refused, 0 where it is a program whose run, if there is one, comes to its end, 3 and 4
/// where the run stops so.
pub fn status_is_its_cause()
    ensures { StatusIsItsCause }
{
    one_list();
    not_both();
    one_tree();
    tree_or_refused();
    accepts_is_program();
    program_or_fault();
}

/// Statuses 6 and 7 come only where a count of faults rose.
pub fn faults_raise_counts()
    ensures { FaultsRaiseCounts }
{}
