// The trace program's lines: the settings and an event read from a line, and the lines that are written.
//
// Every line is taken and refused nothing: what is no such line is answered as bad.
#![tactic(auto)]

pub mod event;
mod field;
pub mod line;
pub mod settings;
