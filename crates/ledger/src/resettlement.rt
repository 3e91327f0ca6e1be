//! One resettlement.
ghost use Rattle.std.specs.Prelude.{◌≤◌, unsigned_abs};
ghost use Rattle.limits.specs.declared.TheConstants.{MOST_CENTS};

use statement::component::Component;

/// What is resettled: a component, its month's own pool, and the balance before.
#[derive(Clone, Copy)]
pub(crate) struct Resettlement {
    pub(crate) component: Component,
    pub(crate) pool: i64,
    pub(crate) balance: i64,
    ghost small: { unsigned_abs balance ≤ MOST_CENTS },
}
