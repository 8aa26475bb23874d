// What is said in text of a check that has ended, and of a refusal.
ghost use Rattle.std.specs.Prelude.{◌≡◌, suc, ◌++◌, drop, IfOk, string_bytes, OnOk};
ghost use Rattle.lists.specs.Counted.{counted};
ghost use Rattle.sheet.specs.Sheets.{input_count, latch_count};
ghost use Rattle.checker.specs.Reports.{numbers_from};
ghost use Rattle.driver.specs.Texts.{line_text, frames_text, run_text, ended_text, fault_text, TellsReport, TellsFault, ShowsRun};

use checker::report::{Report, Verdict};
use lists::counted;
use question::read::number_at;
use sheet::fault::Fault;
use std::alloc::{AllocError, Global};

// What lies behind the first places of a list.
fn behind(list: &[u32], count: u32) -> &[u32]
    ensures { result.now ≡ drop count list.now }
{
    &list[list.len().min(count as usize)..]
}

// Adds a line: a word, and the first `count` numbers of a list.
fn write_line(text: &mut String, word: &str, numbers: &[u32], count: u32) -> Result<(), AllocError>
    ensures { OnOk result (string_bytes text.new ≡ string_bytes text.old ++ line_text word.now (numbers_from numbers.now 0 count)) }
{
    write!(text, "{word}")?;
    for i in 0..count {
        let number = number_at(numbers, i as usize);
        write!(text, " {number}")?;
    }
    write!(text, "\n")
}

// Adds the frames 0 to `last`, which lie one behind the other, the latches of each before its inputs.
fn write_frames(
    text: &mut String,
    latches: u32,
    inputs: u32,
    last: u32,
    frames: &[u32],
) -> Result<(), AllocError>
    ensures { OnOk result (string_bytes text.new ≡ string_bytes text.old ++ frames_text (suc last) latches inputs frames.now) }
{
    let mut rest = frames;
    for _ in 0..=last {
        write_line(text, "s", rest, latches)?;
        rest = behind(rest, latches);
        write_line(text, "i", rest, inputs)?;
        rest = behind(rest, inputs);
    }
    Ok(())
}

// Adds the frames of a run, where that is the verdict.
fn write_run(
    text: &mut String,
    verdict: Verdict,
    sheet: &[u32],
    run: &[u32],
) -> Result<(), AllocError>
    ensures { OnOk result (string_bytes text.new ≡ string_bytes text.old ++ run_text verdict (latch_count (counted sheet.now)) (input_count (counted sheet.now)) (counted run.now)) }
{
    match verdict {
        Verdict::Run { steps } => {
            let sheet = counted(sheet);
            let latches = number_at(sheet, 1);
            let inputs = number_at(sheet, 0);
            write_frames(text, latches, inputs, steps, counted(run))
        }
        Verdict::Safe | Verdict::Undecided | Verdict::Spent | Verdict::Short(_) => Ok(()),
    }
}

// What is said of a check that has ended: its report, and after a run the frames that were read off into `run`.
pub fn ended_text(
    heap: Global,
    report: Report,
    sheet: &[u32],
    run: &[u32],
) -> Result<String, AllocError>
    ensures says_exactly_this { IfOk result (λ s. string_bytes s ≡ ended_text report sheet.now run.now) }
    ensures tells_the_report { IfOk result (λ s. TellsReport report (string_bytes s)) }
    ensures shows_each_frame { IfOk result (λ s. ShowsRun report sheet.now run.now (string_bytes s)) }
{
    let mut text = format!(in heap; "{} {} {}\n", report.verdict, report.bound, report.turns)?;
    write_run(&mut text, report.verdict, sheet, run)?;
    Ok(text)
}

// What is said of a refusal.
pub fn fault_text(heap: Global, fault: Fault) -> Result<String, AllocError>
    ensures says_exactly_this { IfOk result (λ s. string_bytes s ≡ fault_text fault) }
    ensures tells_the_fault { IfOk result (λ s. TellsFault fault (string_bytes s)) }
{
    format!(in heap; "no {} {}\n", fault.number(), fault.place)
}
