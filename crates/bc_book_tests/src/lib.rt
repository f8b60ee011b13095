//! Tests of what the book is made of, with ample memory: guards, sets, counts, the pending list and the failures.
#![tactic(auto)]

#[cfg(test)]
mod counts;
#[cfg(test)]
mod failures;
#[cfg(test)]
mod guards;
#[cfg(test)]
mod made;
#[cfg(test)]
mod pending_list;
#[cfg(test)]
mod sets;
