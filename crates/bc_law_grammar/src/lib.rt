// Laws of the grammar. Its definition is that of `bc_data`; a machine that reads a token at a time stands between it
// and the parser.
#![tactic(auto)]

ghost use Rattle.std.specs.Prelude.{◌⊎◌, ◌≡◌, ℕ, List};
ghost use Rattle.bc_data.specs.Seen.{Seen};
ghost use Rattle.bc_data.specs.SourceTree.{Sequence, Item};
ghost use Rattle.bc_data.specs.Refusal.{IsTreeOf, IsFirstRefused, IsUnexpected, IsTooDeep, IsEnded};
ghost use Rattle.bc_data.specs.declared.run.Place.{Place};

/// Tokens have at most one tree, whatever the limits of levels are.
pub fn one_tree()
    ensures { (m n : ℕ) (one two : Sequence Item) (tokens : List Seen) → IsTreeOf m one tokens → IsTreeOf n two tokens →
        one ≡ two }
{}

/// At most one token is the first refused one.
pub fn one_refused()
    ensures { (n : ℕ) (tokens front front_2 : List Seen) (next next_2 : Seen) → IsFirstRefused n tokens front next →
        IsFirstRefused n tokens front_2 next_2 → (front ≡ front_2) × (next ≡ next_2) }
{}

/// Tokens that end have a tree or a refused token, and not both.
pub fn tree_or_refused()
    ensures one { (n : ℕ) (tokens : List Seen) → IsEnded tokens →
        ((items : Sequence Item) × IsTreeOf n items tokens)
        ⊎ ((at : Place) × (IsUnexpected n tokens at ⊎ IsTooDeep n tokens at)) }
    ensures not_both { (n : ℕ) (items : Sequence Item) (tokens front : List Seen) (next : Seen) →
        IsTreeOf n items tokens → IsFirstRefused n tokens front next → ⊥ }
{}
