//! What a program does: its values, its stops, and what it prints.
#![tactic(auto)]

mod ahead;
pub mod arguments;
mod begin;
mod blocks;
mod calls;
pub mod cont;
pub mod framed;
mod frames;
pub mod laws;
mod leap;
mod leaving;
pub mod machine;
mod methods;
mod moves;
mod named;
pub mod noting;
pub mod operators;
pub mod pace;
pub mod printed;
pub mod script_run;
pub mod spelling;
pub mod state;
mod steps;
pub mod stop;
mod tables;
pub mod text;
mod turns;
pub mod value;
mod vars;
