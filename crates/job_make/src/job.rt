// The job `make`, from a recipe to what it says.
ghost use Rattle.std.specs.Prelude.{[], IfOk};
ghost use Rattle.job_answer.specs.Meanings.{Judges};
ghost use Rattle.job_make.specs.Answers.{meaning};

use crate::recipe::Recipe;
use job_answer::{Said, Status, write_complex_line};
use std::alloc::{AllocError, Global};

/// Says the complex that the generator makes of a recipe, on one line. No byte of an input is taken.
///
/// # Errors
///
/// `AllocError` for want of memory.
pub fn say_made(alloc: Global, recipe: &Recipe) -> Result<Said, AllocError>
    ensures { IfOk result (λ a. Judges (meaning recipe.now) [] a.status a.text.items tt) }
{
    let complex = recipe.make(alloc)?;
    let mut text = Vec::new(alloc);
    write_complex_line(&mut text, &complex)?;
    Ok(Said {
        status: Status::Yes,
        text,
    })
}
