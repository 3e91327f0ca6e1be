//! The text of a refusal.
ghost use Rattle.std.specs.Prelude.{◌≡◌, IfOk, string_bytes};
ghost use Rattle.refusal.specs.Answers.{number};
ghost use Rattle.charges_text.specs.Refusals.{line_of, refusal_line};

use refusal::{Fault, Layer, Refusal};
use std::alloc::{AllocError, Global};

/// The line of the month's text that was refused; 0 where its reader did not refuse.
fn line_of(fault: Fault) -> u32
    ensures { result ≡ line_of fault.layer (number fault.refusal) fault.place }
{
    match (fault.layer, fault.refusal) {
        (Layer::Text, _) | (Layer::Sheet, Refusal::Weights) => fault.place,
        _ => 0,
    }
}

/// The refusal's number and line.
pub fn refusal_text(heap: Global, fault: Fault) -> Result<String, AllocError>
    ensures { IfOk result (λ t. string_bytes t ≡ refusal_line (number fault.refusal) fault.layer fault.place) }
{
    let refusal = fault.refusal;
    let line = line_of(fault);
    format!(in heap; "refused={refusal},{line}\n")
}
