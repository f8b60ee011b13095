//! Tests of the reader over texts: trees, refusals with their places, and levels.
#![tactic(auto)]

#[cfg(test)]
mod answers;
#[cfg(test)]
mod broken_off;
#[cfg(test)]
mod levels;
#[cfg(test)]
mod refused_bytes;
#[cfg(test)]
mod refused_items;
#[cfg(test)]
mod refused_statements;
#[cfg(test)]
mod tests;
