//! Tests of the checker over texts, through the tokens and the parser.
#![tactic(auto)]

#[cfg(test)]
mod code_tests;
#[cfg(test)]
mod expression_tests;
#[cfg(test)]
mod limit_tests;
#[cfg(test)]
mod null_tests;
#[cfg(test)]
mod statement_tests;
#[cfg(test)]
mod tests;
#[cfg(test)]
mod texts;
