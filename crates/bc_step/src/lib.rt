//! One instruction of the stack machine, on the private copies of one invocation.
#![tactic(auto)]

mod answer;
pub mod area;
mod body;
mod calls;
mod control;
mod created;
mod exits;
mod held;
mod made;
mod objects;
mod printing;
mod reach;
mod slots;
mod stack;
pub mod state;
pub mod step;
mod tags;
mod values;
