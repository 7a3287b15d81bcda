//! A large script that is made from one number, and the line that is printed of its run.
#![tactic(auto)]

mod block;
mod commands;
mod counts;
mod number;
mod pieces;
mod script;

pub use counts::put_gen_line;
pub use number::gen_count;
pub use script::generated_script;
