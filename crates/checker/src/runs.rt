// The run that an assignment of a path question has in it, as numbers.
ghost use Rattle.std.specs.Prelude.{◌≡◌, ◌+◌, ◌-◌, ◌*◌, ◌^◌, ◌<◌, ◌≤◌, ◌++◌, length, replicate};
ghost use Rattle.lists.specs.Counted.{counted, on_counted};
ghost use Rattle.signal.specs.Truth.{lit, bits_of};
ghost use Rattle.sheet.specs.Sheets.{sheet_of, input_count, latch_count};
ghost use Rattle.formula.specs.Formulas.{width};
ghost use Rattle.formula.specs.Framing.{in_frame};
ghost use Rattle.checker.specs.Reports.{first_bad, numbers_from, frame_numbers, run_numbers, run_size, run_off};

use formula::frame::in_frame;
use lists::{counted_len, item_or};
use sheet::fault::{Cause, Fault, Layer};
use sheet::legal::LegalSheet;
use signal::{Signal, literal_value};

// Whether `bad` is 1 in a frame. A literal that leaves 32 bits is of a variable that the assignment lacks.
fn is_bad(sheet: LegalSheet<'_>, assignment: &[u32], frame: u32) -> bool
    requires { length assignment.now ≤ 2 ^ 28 }
    ensures { result ≡ lit (bits_of assignment.now) (in_frame (width (sheet_of sheet.entry.numbers.now)) frame (sheet_of sheet.entry.numbers.now).bad) }
{
    let bad = sheet.bad();
    match in_frame(bad, frame, sheet.width()) {
        Some(literal) => literal_value::<bool>(assignment, literal.number()),
        None => bad.is_negated(),
    }
}

// The first of the frames 0 to `last` in which `bad` is 1; where it is in none, the last.
fn first_bad(sheet: LegalSheet<'_>, assignment: &[u32], last: u32) -> u32
    requires { length assignment.now ≤ 2 ^ 28 }
    ensures { result ≡ first_bad (sheet_of sheet.entry.numbers.now) assignment.now last 0 }
{
    (0..last)
        .find(|frame| is_bad(sheet, assignment, *frame))
        .unwrap_or(last)
}

// How many numbers a frame has.
fn frame_size(sheet: LegalSheet<'_>) -> usize
    ensures { result ≡ latch_count sheet.entry.numbers.now + input_count sheet.entry.numbers.now }
{
    (sheet.latches() + sheet.inputs()) as usize
}

// How many numbers a run of so many steps has.
fn run_size(sheet: LegalSheet<'_>, steps: u32) -> usize
    ensures { result ≡ run_size (sheet_of sheet.entry.numbers.now) steps }
{
    (steps as usize + 1) * frame_size(sheet)
}

// Fills a part with the numbers of a list from a place on. A place that the list lacks counts as 0.
fn copy_from(list: &[u32], from: usize, part: &mut [u32])
    requires { from + length part.old < 2 ^ 64 }
    ensures { part.new ≡ numbers_from list.now from (length part.old) }
{
    for (i, number) in part.iter_mut().enumerate() {
        *number = item_or(list, from + i, 0);
    }
}

// Writes a frame: its latches, then its inputs.
fn write_frame(sheet: LegalSheet<'_>, assignment: &[u32], frame: u32, part: &mut [u32])
    requires { length part.old ≡ latch_count sheet.numbers.now + input_count sheet.numbers.now }
    ensures { part.new ≡ frame_numbers (sheet_of sheet.entry.numbers.now) assignment.now frame }
{
    let inputs_at = frame as usize * sheet.width() as usize + 1;
    let latches_at = inputs_at + sheet.inputs() as usize;
    let (state, input) = part.split_at_mut(sheet.latches() as usize);
    copy_from(assignment, latches_at, state);
    copy_from(assignment, inputs_at, input);
}

// Writes the frames 0 to `steps`, with zeros behind them.
#[tactic(auto, using(crate::proofs::Tracing::row_fits))]
fn write_run(sheet: LegalSheet<'_>, assignment: &[u32], steps: u32, run: &mut [u32])
    requires room { run_size (sheet_of sheet.numbers.now) steps ≤ length run.old }
    requires few { length run.old ≤ 2 ^ 28 }
    ensures { run.new ≡ run_numbers (sheet_of sheet.entry.numbers.now) assignment.now steps ++ replicate (length run.old - run_size (sheet_of sheet.entry.numbers.now) steps) 0 }
{
    let size = frame_size(sheet);
    for frame in 0..steps + 1 {
        let at = frame as usize * size;
        write_frame(sheet, assignment, frame, &mut run[at..at + size]);
    }
    let end = run_size(sheet, steps);
    run[end..].fill(0);
}

// The run, where every place of the lists counts.
fn run_in(sheet: &[u32], assignment: &[u32], last: u32, run: &mut [u32]) -> Result<u32, Fault>
    requires few_bits { length assignment.now ≤ 2 ^ 28 }
    requires few { length run.old ≤ 2 ^ 28 }
    ensures { (result, run.new) ≡ run_off (counted sheet.now) assignment.now last run.old }
{
    let Some(sheet) = LegalSheet::new(sheet) else {
        run.fill(0);
        return Ok(last);
    };
    let steps = first_bad(sheet, assignment, last);
    if run.len() < run_size(sheet, steps) {
        return Err(Fault {
            layer: Layer::ReadOff,
            cause: Cause::RunTooShort,
            place: 0,
        });
    }
    write_run(sheet, assignment, steps, run);
    Ok(steps)
}

// Writes the run of an assignment, from frame 0 to the first frame in which `bad` is 1, with zeros behind it, and returns how
// many steps it has. Refused, with nothing written, where it does not fit. A list that lays out no sheet has no run: the last
// frame is returned, and zeros are written.
pub(crate) fn run_off(
    sheet: &[u32],
    assignment: &[u32],
    last: u32,
    run: &mut [u32],
) -> Result<u32, Fault>
    requires { length assignment.now ≤ 2 ^ 28 }
    ensures { (result, run.new) ≡ on_counted (run_off (counted sheet.now) assignment.now last) run.old }
{
    let len = counted_len(run.len());
    run_in(sheet, assignment, last, &mut run[..len])
}
