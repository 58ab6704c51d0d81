//! Cases on smallest models.

ghost use Rattle.std.specs.Prelude.{◌≤◌, length};

use crate::items::add_item;
use crate::models::{Sheet, built, rows_text};
use crate::unanswered::Unanswered;
use lw_bisim::{Quotient, smallest};
use std::alloc::{AllocError, Global};

// The rows of the quotient, and the places of so many worlds.
fn quotient_text(alloc: Global, quotient: &Quotient, worlds: usize) -> Result<String, AllocError>
    requires { worlds ≤ length quotient.now.places }
{
    let mut places = String::new(alloc);
    for world in 0..worlds {
        add_item(
            &mut places,
            format!(in alloc; "{}", quotient.place(world))?.as_str(),
        )?;
    }
    let rows = rows_text(alloc, quotient.model())?;
    format!(in alloc; "{rows}; places {places}")
}

/// The rows of the smallest model that is equal to the model at each of its worlds, and the place of each there.
pub fn smallest_line(alloc: Global, sheet: &Sheet) -> Result<String, Unanswered> {
    let model = built(alloc, sheet, None)?;
    let quotient = smallest(alloc, &model)?;
    Ok(quotient_text(alloc, &quotient, model.worlds())?)
}
