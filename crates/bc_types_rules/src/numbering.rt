// Laws and worked examples of the numbering of names.

ghost use Rattle.std.specs.Prelude.{◌≡◌};
ghost use Rattle.bc_data.specs.SourceTree.{Sequence, Item};
ghost use Rattle.bc_data.specs.declared.run.Place.{Place};
ghost use Rattle.bc_types_rules.specs.Got.{Kind, Gives, Fails};
ghost use Rattle.bc_types_rules.specs.Numbering.{Spaces, numbering};
ghost use Rattle.bc_types_rules.specs.NumberingExamples.{NumberingExamples};
ghost use Rattle.bc_types_rules.specs.NumberingLaws.{IsNameFault, AreSpaces};

/// Names are refused as `Twice` or as `TooMany` alone.
pub fn names_fail_as_twice_or_too_many()
    ensures { (items : Sequence Item) (kind : Kind) (at : Place) → numbering items ≡ Fails kind at → IsNameFault kind }
{}

/// No space has more names than it may have, each name has its place as its number, and each class has its members.
pub fn names_have_their_places()
    ensures { (items : Sequence Item) (s : Spaces) → numbering items ≡ Gives s → AreSpaces s }
{}

/// The definition gives what the examples say.
pub fn numbering_examples_hold()
    ensures { NumberingExamples }
{}
