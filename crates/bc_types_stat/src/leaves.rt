// Whether a body surely leaves.

ghost use Rattle.std.specs.Prelude.{◌≡◌, false};
ghost use Rattle.bc_data.specs.SourceTree.{Nothing};
ghost use Rattle.bc_data.specs.View.{stat_views, view_stat};
ghost use Rattle.bc_types_rules.specs.Statements as rules;

use bc_data::tree::StatText;

/// Whether a statement surely leaves: a return, a `taskexit`, a block that surely leaves, or an `if` with an `else` of
/// which both do.
#[cycle(leaves)]
pub fn leaves(s: &StatText) -> bool
    ensures { result ≡ rules.leaves (view_stat s.now) }
{
    match s {
        StatText::Block(_, body) => all_leave(body.as_slice()),
        StatText::If(_, _, body, other) => match other {
            Some(other) => all_leave(body.as_slice()) && all_leave(other.as_slice()),
            None => false,
        },
        StatText::Return(_, _) | StatText::Exit(_, _) => true,
        _ => false,
    }
}

/// Of statements in order the last one decides.
#[cycle(leaves)]
pub fn all_leave(body: &[StatText]) -> bool
    ensures { result ≡ rules.all_leave (stat_views body.now Nothing) }
{
    match body {
        [.., last] => leaves(last),
        [] => false,
    }
}
