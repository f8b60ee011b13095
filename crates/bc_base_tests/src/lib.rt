//! Tests of the lowest crates: lists and decimal texts, the objects of the outside, and a whole source read with ample
//! memory.
#![tactic(auto)]

#[cfg(test)]
mod few;
#[cfg(test)]
mod lists;
#[cfg(test)]
mod made;
#[cfg(test)]
mod numbers;
#[cfg(test)]
mod objects;
#[cfg(test)]
mod outcomes;
#[cfg(test)]
mod reading;
