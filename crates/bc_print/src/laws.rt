// Laws of the canonical text.

ghost use Rattle.std.specs.Prelude.{◌≡◌, ℕ, List, false};
ghost use Rattle.bc_data.specs.SourceTree.{Sequence, Item};
ghost use Rattle.bc_data.specs.Seen.{meaning};
ghost use Rattle.bc_print.specs.Canonical.{literal_bytes, program_text};
ghost use Rattle.bc_print.specs.Laws.{unplaced};

/// The text of a tree does not depend on its places: trees that differ in places alone have one text.
pub fn places_are_not_written()
    ensures without_places { (items : Sequence Item) → program_text (unplaced items) ≡ program_text items }
    ensures one_text { (one two : Sequence Item) → unplaced one ≡ unplaced two → program_text one ≡ program_text two }
{}

/// What is written between the quotes of a text means that text.
pub fn literals_are_read()
    ensures { (bytes : List ℕ) → meaning false (literal_bytes bytes) ≡ bytes }
{}
