// Reads a sheet on standard input, checks it with the splitting solver, and says how the check ended, or why it was refused.
#![tactic(auto)]

ghost use Rattle.std.specs.Prelude.{◌≤◌, length, IfOk};

use checker::Refused;
use checker::report::Report;
use driver::drive::{Stopped, run};
use driver::text::{ended_text, fault_text};
use producer::split::Splitting;
use sheet::fault::Fault;
use sheet::read::read;
use std::alloc::{AllocError, Global};
use std::io;
use std::io::Read;

// One byte more than a sheet may have, so that a longer text is seen to be too long.
const TEXT_BYTES: usize = 4097;

// How many numbers each list holds.
const PLACES: usize = 16_384;

// The largest bound of a path question.
const STEP_LIMIT: u32 = 4;

// How many answers may be shown or taken.
const TURN_LIMIT: u32 = 1000;

// Fills `text` from standard input, and answers how many bytes came. It asks for all at once, so that a text that comes as one
// message is whole, and needs no heap.
fn read_input(rt: &HostRuntime, text: &mut [u8]) -> io::Result<usize>
    ensures fits { IfOk result (λ n. n ≤ length text.old) }
{
    let mut input = rt.stdin();
    let mut len = 0;
    while len < text.len() {
        let count = input.read(&mut text[len..])?;
        if count == 0 {
            break;
        }
        len += count;
    }
    Ok(len)
}

// The lists that a check works on, and the run that is read off.
#[derive(Drop)]
struct Lists {
    sheet: Vec<u32>,
    formula: Vec<u32>,
    line_values: Vec<u32>,
    question: Vec<u32>,
    answer: Vec<u32>,
    work: Vec<u32>,
    run: Vec<u32>,
}

impl Lists {
    fn new(heap: Global) -> Result<Lists, AllocError> {
        let zeros = || vec![in heap; 0; PLACES];
        Ok(Lists {
            sheet: zeros()?,
            formula: zeros()?,
            line_values: zeros()?,
            question: zeros()?,
            answer: zeros()?,
            work: zeros()?,
            run: zeros()?,
        })
    }

    // Checks the sheet that a text spells.
    fn check(&mut self, text: &[u8]) -> Result<Report, Fault> {
        read(text, &mut self.sheet)?;
        let ended = run(
            &self.sheet,
            STEP_LIMIT,
            TURN_LIMIT,
            &mut Splitting,
            &mut self.formula,
            &mut self.line_values,
            &mut self.question,
            &mut self.answer,
            &mut self.work,
        )
        .map_err(fault_of)?;
        ended.read_off(&self.sheet, &self.answer, &mut self.run)
    }
}

// Why a run came to no end.
fn fault_of(stopped: Stopped) -> Fault {
    match stopped {
        Stopped::Unopened(fault) | Stopped::Refused(Refused { fault, .. }) => fault,
    }
}

// What is said of the sheet that a text spells.
fn verdict_on(heap: Global, text: &[u8]) -> Result<String, AllocError> {
    let mut lists = Lists::new(heap)?;
    match lists.check(text) {
        Ok(report) => ended_text(heap, report, &lists.sheet, &lists.run),
        Err(fault) => fault_text(heap, fault),
    }
}

fn main(rt: HostRuntime) -> anyhow::Result<()> {
    let mut text = [0; TEXT_BYTES];
    let len = read_input(&rt, &mut text)?;
    let said = verdict_on(rt.alloc(), &text[..len])?;
    print!(rt; "{said}")?;
    Ok(())
}
