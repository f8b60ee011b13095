//! Tests of the tokens of texts, and of their faults.
#![tactic(auto)]

#[cfg(test)]
mod tests;
