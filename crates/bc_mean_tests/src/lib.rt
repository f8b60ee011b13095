//! Tests of the source meaning over texts, from their tokens to the end of a serial run.
#![tactic(auto)]

#[cfg(test)]
mod compared;
#[cfg(test)]
mod example_tests;
#[cfg(test)]
mod fault_tests;
#[cfg(test)]
mod language_tests;
#[cfg(test)]
mod limit_tests;
#[cfg(test)]
mod object_tests;
#[cfg(test)]
mod place_tests;
#[cfg(test)]
mod rows;
#[cfg(test)]
mod serial;
#[cfg(test)]
mod sets_tests;
#[cfg(test)]
mod store_tests;
#[cfg(test)]
mod tag_tests;
