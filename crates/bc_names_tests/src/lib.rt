//! Tests of the numbers of names, over texts.
#![tactic(auto)]

#[cfg(test)]
mod limit_tests;
#[cfg(test)]
mod tests;
#[cfg(test)]
mod texts;
