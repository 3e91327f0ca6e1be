//! The decimal numbers of a stored file.
use anyhow::Context;
use std::alloc::{AllocError, Global};

/// A number while its bytes are read: its sign, and its digits so far. It is held below 0, where every
/// number has room.
#[derive(Clone, Copy)]
struct Digits {
    minus: bool,
    below: Option<i64>,
}

impl Digits {
    /// No byte yet.
    fn none() -> Digits {
        Digits {
            minus: false,
            below: None,
        }
    }

    /// The number with one more byte, a digit or a minus sign.
    fn with(self, byte: u8) -> Digits {
        match byte.checked_sub(b'0') {
            None => Digits {
                minus: true,
                ..self
            },
            Some(digit) => {
                let below = self.below.unwrap_or(0).saturating_mul(10);
                Digits {
                    below: Some(below.saturating_sub(i64::from(digit))),
                    ..self
                }
            }
        }
    }

    /// The number that the digits tell, if there are any.
    fn value(self) -> Option<i64> {
        let below = self.below?;
        Some(if self.minus {
            below
        } else {
            0i64.saturating_sub(below)
        })
    }
}

/// All numbers of a text, each of which ends in a blank or a new line.
pub(crate) fn numbers_of(heap: Global, text: &[u8]) -> Result<Vec<i64>, AllocError> {
    let mut all = Vec::new(heap);
    let mut digits = Digits::none();
    for byte in text {
        if *byte > b' ' {
            digits = digits.with(*byte);
        } else if let Some(number) = digits.value() {
            all.push(number)?;
            digits = Digits::none();
        }
    }
    Ok(all)
}

/// The numbers that are still to be taken.
#[derive(Drop)]
pub struct Numbers<'a> {
    rest: &'a [i64],
}

impl<'a> Numbers<'a> {
    pub(crate) fn new(all: &'a [i64]) -> Numbers<'a> {
        Numbers { rest: all }
    }

    /// Takes the next number.
    pub(crate) fn next(&mut self) -> anyhow::Result<i64> {
        let (first, rest) = self
            .rest
            .split_first()
            .context("a stored run ends too early")?;
        self.rest = rest;
        Ok(*first)
    }

    /// Takes the next number, which is a count, a month, a weight or units.
    pub(crate) fn count(&mut self) -> anyhow::Result<u32> {
        Ok(u32::try_from(self.next()?)?)
    }
}
