//! The report of the order of suspicion.
ghost use Rattle.std.specs.Prelude.{◌≡◌, ◌+◌, IfOk, codes, string_bytes};
ghost use Rattle.std.specs.List.{flat_map};
ghost use Rattle.ax_rank_coverage.specs.Texts.{fraction_text, order_report, place_line};

use ax_rank::{Score, Standing};
use std::alloc::{AllocError, Global};

fn fraction_text(alloc: Global, score: Score) -> Result<String, AllocError>
    ensures { IfOk result (λ s. string_bytes s ≡ fraction_text score.num score.den) }
{
    let Score { num, den } = score;
    if den == 0 {
        return String::from_str(alloc, "0/1");
    }
    format!(in alloc; "{num}/{den}")
}

// The numbers of places of 64 bits have 65.
fn number_of(place: usize) -> u128
    ensures { result ≡ place + 1 }
{
    place as u128 + 1
}

fn place_text(alloc: Global, standing: &Standing) -> Result<String, AllocError>
    ensures { IfOk result (λ s. string_bytes s ≡ place_line standing.now) }
{
    let number = number_of(standing.place);
    let score = fraction_text(alloc, standing.score)?;
    let score = score.as_str();
    format!(in alloc; "expression {number}: {score}\n")
}

/// A line for each place of the order, with the number of its candidate and its score (docs/FORMATS.md).
pub fn order_text(alloc: Global, order: &[Standing]) -> Result<Vec<u8>, AllocError>
    ensures { IfOk result (λ text. text.items ≡ order_report order.now) }
{
    let mut text = Vec::new(alloc);
    for standing in order {
        let line = place_text(alloc, standing)?;
        text.extend_from_slice(line.as_bytes())?;
    }
    Ok(text)
}
