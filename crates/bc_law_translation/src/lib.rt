//! A program has one translation, and so its code has one listing.
#![tactic(auto)]

ghost use Rattle.bc_law_translation.specs.Laws.{OneListing, OneTranslation};

/// Codes that are translations of one program are equal: in every instruction and its place, in the numbers of slots
/// and of tag variables, and in what is kept of each class.
pub fn one_translation()
    ensures { OneTranslation }
{}

/// The listing is the same, wherever the program lies in memory and whichever of its translations is listed.
pub fn one_listing()
    ensures { OneListing }
{}
