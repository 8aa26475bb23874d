// The lines of a sheet, and the numbers that those of two may have.
ghost use Rattle.std.specs.Prelude.{◌≡◌};
ghost use Rattle.sheet.specs.Parse.{in_range, ordered};

use crate::literal::Literal;

// A line by its letter, with the parts of the text that should be its numbers.
#[derive(Clone, Copy)]
pub(crate) enum Line<'a> {
    Contents(&'a [u8], &'a [u8], &'a [u8]),
    Latch(&'a [u8], &'a [u8]),
    Gate(&'a [u8], &'a [u8]),
    Bad(&'a [u8]),
}

// The lines of two numbers.
#[derive(Clone, Copy)]
pub(crate) enum Due {
    OfLatch,
    OfGate,
}

// Whether the numbers of a line of two are within their limits, where the largest literal is `most`.
pub(crate) fn in_range(due: Due, most: u32, first: u32, second: u32) -> bool
    ensures { result ≡ in_range due most first second }
{
    match due {
        Due::OfLatch => first <= most && second <= 2,
        Due::OfGate => first <= most && second <= most,
    }
}

// Whether a gate, whose node is `own`, stands above its left operand, and that above its right one.
pub(crate) fn in_order(due: Due, own: u32, first: u32, second: u32) -> bool
    ensures { result ≡ ordered due own first second }
{
    match due {
        Due::OfLatch => true,
        Due::OfGate => {
            let left = Literal::from_number(first).node();
            let right = Literal::from_number(second).node();
            left < own && right < left
        }
    }
}
