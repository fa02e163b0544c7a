//! The job `make`: the complex of the generator, in its one text. It takes no input.
#![tactic(auto)]

mod job;
mod law;
mod recipe;

pub use job::say_made;
pub use law::make_law;
pub use recipe::Recipe;
