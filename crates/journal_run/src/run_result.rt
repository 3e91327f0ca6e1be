//! What a run leaves.
ghost use Rattle.std.specs.Prelude.{◌<◌};

use refusal::Fault;
use runs::done::Done;

/// What a run leaves: each order's outcome, its statement of `width` cells behind the statements of
/// the orders before it, and the ledger's balances and the costs that wait.
#[derive(Drop)]
pub(crate) struct RunResult {
    pub width: usize,
    pub outcomes: Vec<Result<Done, Fault>>,
    pub statements: Vec<i64>,
    pub balances: [i64; 13],
    pub waiting: [i64; 6],
    ghost wide: { 0 < width },
}
