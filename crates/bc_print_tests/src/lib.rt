//! Tests of canonical texts, over texts.
#![tactic(auto)]

#[cfg(test)]
mod tests;
