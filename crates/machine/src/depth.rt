// The reverse depth: how many steps suffice from any state that can reach a bad one.
ghost use Rattle.std.specs.Prelude.{◌≡◌, ℕ, ◌^◌, ◌≤◌, IfOk, if◌then◌else◌, Ok, Err};
ghost use Rattle.sheet.specs.declared.fault.Cause.TheVariants.{NotLegal};
ghost use Rattle.lists.specs.Counted.{counted};
ghost use Rattle.sheet.specs.Render.{well_formed};
ghost use Rattle.sheet.specs.Sheets.{Sheet, sheet_of, latch_count};
ghost use Rattle.machine.specs.Depth.{ReverseDepth, HasReverseDepth, BadRuns};
ghost use Rattle.machine.specs.Faults.{refusal};

use crate::refuse;
use sheet::fault::{Cause, Fault};
use sheet::legal::LegalSheet;

// How many states the machine has, which its reverse depth never exceeds. It has exactly one reverse depth.
pub fn depth_limit(sheet: &[u32]) -> Result<u32, Fault>
    ensures is_the_number_of_states { result ≡ (if well_formed (counted sheet.now) then Ok (2 ^ latch_count (counted sheet.now)) else Err (refusal NotLegal 0)) }
    ensures each_sheet_has_exactly_one_depth { (s : Sheet) → HasReverseDepth s }
    ensures bad_runs_need_no_more_steps { (s : Sheet) → BadRuns s }
    ensures limits_the_reverse_depth { IfOk result (λ most. (depth : ℕ) → ReverseDepth (sheet_of (counted sheet.now)) depth → depth ≤ most) }
{
    let Some(sheet) = LegalSheet::new(sheet) else {
        return Err(refuse(Cause::NotLegal, 0));
    };
    Ok(1 << sheet.latches())
}
