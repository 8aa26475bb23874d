// The machine that a sheet describes: its reverse depth, and its steps.
#![tactic(auto)]

ghost use Rattle.std.specs.Prelude.{◌≡◌};
ghost use Rattle.machine.specs.Faults.{refusal};

use sheet::fault::{Cause, Fault, Layer};

pub mod depth;
pub mod simulate;

fn refuse(cause: Cause, place: u32) -> Fault
    ensures { result ≡ refusal cause place }
{
    Fault {
        layer: Layer::Machine,
        cause,
        place,
    }
}
