//! The rules that a text may name.

/// A sharing rule, by its name.
#[derive(Clone, Copy, PartialEq, Eq, Debug)]
pub enum RuleName {
    Posted,
    Ratio,
}

/// Goes on with the rule of a name: `with_rule!(name, |rule| task)`. Each rule is a type of its own,
/// with its own step, so the task is made once for each of them.
#[macro_export]
macro_rules! with_rule {
    ($name:expr, |$rule:ident| $task:expr) => {
        match $name {
            $crate::name::RuleName::Posted => {
                let $rule = $crate::posted::Posted;
                $task
            }
            $crate::name::RuleName::Ratio => {
                let $rule = $crate::ratio::Ratio;
                $task
            }
        }
    };
}
