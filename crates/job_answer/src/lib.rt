//! What the answers of all jobs have: a status and a text, why an input is refused, and the lines that several jobs write. It
//! touches only the texts that it is lent.
#![tactic(auto)]

mod alone;
mod fault;
mod lines;
mod said;
mod status;

pub use alone::{read_alone, read_two};
pub use fault::Fault;
pub use lines::{
    apart_line, clash_line, euler_line, reason_name, ridge_line, write_complex_line, write_set_off,
    write_sides_line,
};
pub use said::{Said, plain, refuse};
pub use status::Status;
