// What the cases share: refusals that can be compared, and what lists hold after a call.
use sheet::fault::{Fault, Layer};

// A refusal: the number of the check that failed, and the place it speaks of.
#[derive(Clone, Copy, PartialEq, Eq, Debug, Drop)]
pub(crate) struct Refusal {
    pub(crate) number: u32,
    pub(crate) place: u32,
}

impl From<Fault> for Refusal {
    fn from(fault: Fault) -> Refusal {
        Refusal {
            number: fault.number(),
            place: fault.place,
        }
    }
}

// The refusal that a table has with this number and this place.
pub(crate) fn refused(number: u32, place: u32) -> Option<Refusal> {
    Some(Refusal { number, place })
}

// What a layer refuses with, if it refuses.
pub(crate) fn refusal_by<T: Drop>(layer: Layer, answer: Result<T, Fault>) -> Option<Refusal> {
    let fault = answer.err()?;
    (fault.layer == layer).then_some(Refusal::from(fault))
}

// Whether a list has these numbers, and then zeros.
pub(crate) fn has_only(list: &[u32], numbers: &[u32]) -> bool {
    list.strip_prefix(numbers)
        .is_some_and(|rest| rest.iter().all(|x| *x == 0))
}

// Whether each number of a list is 9, as it was before.
pub(crate) fn is_untouched(list: &[u32]) -> bool {
    list.iter().all(|x| *x == 9)
}
