//! What each command makes of its file, and the top call.
#![tactic(auto)]

pub mod answer;
mod make;
mod serve;
pub mod status_laws;
pub mod top;
