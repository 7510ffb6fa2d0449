// The month file: one command a line, read from bytes and written as text.
#![tactic(auto)]

pub mod answer;
pub mod command;
pub mod fault;
mod lines;
mod number;
pub mod output;
pub mod read;
pub mod stop;
mod words;
