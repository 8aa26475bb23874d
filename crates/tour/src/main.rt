// A walk through one real task, with all that is done printed: a new hoop driver beside an older needle board.
#![tactic(auto)]

ghost use Rattle.std.specs.Prelude.{◌≡◌, Ok, IfOk};

use answer::refutations::check_refutation;
use anyhow::{Context, anyhow, ensure};
use formula::root::Root;
use formula::start::start_formula;
use interpolant::draw::interpolate;
use machine::simulate::simulate_bits;
use question::build::{inclusion_question, path_question, start_question};
use question::read::{clause_count, first_count, number_at, variable_count};
use sheet::fault::Fault;
use sheet::legal::LegalSheet;
use sheet::literal::Literal;
use sheet::read::read;
use sheet::write::write;
use std::{fs, io};

const SHEET_PLACES: usize = 452;

const TEXT_BYTES: usize = 4096;

const FORMULA_PLACES: usize = 64;

const QUESTION_PLACES: usize = 1024;

// A refutation of the path question at bound 0 of the first sheet: from no start state is a bad one reached in one step.
const HOOP_DRIVER_REFUTED: [u32; 94] = [
    31, 40, 18, 16, 15, 41, 10, 42, 10, 9, 43, 7, 8, 23, 20, 22, 44, 45, 5, 40, 18, 16, 15, 47, 10,
    48, 10, 9, 49, 8, 8, 23, 20, 22, 50, 51, 5, 40, 18, 16, 15, 53, 10, 54, 10, 9, 55, 7, 8, 23,
    20, 22, 56, 57, 5, 40, 18, 16, 15, 59, 10, 60, 11, 9, 23, 20, 22, 61, 62, 5, 40, 18, 16, 15,
    64, 10, 65, 10, 9, 66, 7, 8, 23, 20, 22, 67, 68, 5, 23, 21, 22, 69, 70, 4,
];

// What the driver does at each step: announces a needle number, has a value to send, and the value is a thread weight. This
// is the order of signals in which the old board takes a weight for a needle number.
const SIGNALS: [[bool; 3]; 4] = [
    [true, false, false],
    [false, true, true],
    [false, true, false],
    [false, false, false],
];

fn show_numbers(rt: &HostRuntime, numbers: &[u32]) -> io::Result<()> {
    for n in numbers {
        print!(rt; " {n}")?;
    }
    println!(rt; "")
}

fn show_bits(rt: &HostRuntime, bits: &[bool]) -> io::Result<()> {
    for b in bits {
        let digit = u32::from(*b);
        print!(rt; " {digit}")?;
    }
    Ok(())
}

// What a check answers. If it refuses, that is said, and the walk ends.
fn accepted<T: Drop>(rt: &HostRuntime, answer: Result<T, Fault>) -> anyhow::Result<T>
    ensures is_the_value { IfOk result (λ value. answer ≡ Ok value) }
{
    match answer {
        Ok(value) => Ok(value),
        Err(fault) => {
            println!(rt; "  refused: {} at {}", fault.number(), fault.place)?;
            Err(anyhow!("refused"))
        }
    }
}

// Writes the sheet back as a text, and says whether that is the text it was read from.
fn write_back(rt: &HostRuntime, list: &[u32], text: &[u8]) -> anyhow::Result<()> {
    let mut copy = [0; TEXT_BYTES];
    let len = accepted(rt, write(list, &mut copy))?;
    ensure!(
        copy.get(..len) == Some(text),
        "the text that was written is another"
    );
    println!(rt; "  written back: the same {len} bytes")?;
    Ok(())
}

// Runs the machine on the signals, step by step.
fn simulate(rt: &HostRuntime, list: &[u32], state: &mut [bool]) -> anyhow::Result<()> {
    let mut bad_steps = 0u32;
    for signals in &SIGNALS {
        print!(rt; "  latches")?;
        show_bits(rt, state)?;
        print!(rt; ", inputs")?;
        show_bits(rt, signals)?;
        if accepted(rt, simulate_bits(list, state, signals))? {
            bad_steps = bad_steps.saturating_add(1);
            println!(rt; ": bad")?;
        } else {
            println!(rt; ": not bad")?;
        }
    }
    println!(rt; "  bad in {bad_steps} of these 4 states")?;
    Ok(())
}

// Runs the machine from its start, with every unset latch at 0.
fn run(rt: &HostRuntime, list: &[u32], sheet: LegalSheet<'_>) -> anyhow::Result<()> {
    let mut state: Vec<bool> = (0..sheet.latches())
        .map(|latch| sheet.start(latch).unwrap_or(false))
        .collect(rt.alloc())?;
    simulate(rt, list, &mut state)
}

// Says how large a question is, if there was room for it.
fn show_question(
    rt: &HostRuntime,
    kind: &str,
    question: &[u32],
    len: Option<usize>,
) -> anyhow::Result<()> {
    len.context("no room for a question")?;
    let variables = variable_count(question);
    let clauses = clause_count(question);
    let first = first_count(question);
    println!(rt; "  {kind}: {variables} variables, {clauses} clauses, {first} of the first part")?;
    Ok(())
}

// The three questions: about the start states R, and about P, the states in which no weight has been taken for a number.
fn ask(rt: &HostRuntime, list: &[u32], formula: &[u32], start: Root) -> anyhow::Result<()> {
    let gates = start.gates;
    let r = start.literal;
    let p = Literal::from_number(11);
    let mut question = [0; QUESTION_PLACES];
    let len = start_question(list, formula, gates, r, &mut question);
    show_question(rt, "start question, is a start state bad", &question, len)?;
    let len = path_question(list, formula, gates, r, 0, &mut question);
    show_question(
        rt,
        "path question at bound 0, is a bad state one step away",
        &question,
        len,
    )?;
    let len = inclusion_question(list, formula, gates, p, r, &mut question);
    show_question(
        rt,
        "inclusion question, is a state with no wrong number no start state",
        &question,
        len,
    )
}

// Judges a refutation of the path question at bound 0, and draws the formula that it tells: what is true after one step.
fn judge(
    rt: &HostRuntime,
    list: &[u32],
    formula: &mut [u32],
    start: Root,
    refutation: &[u32],
) -> anyhow::Result<()> {
    let mut question = [0; QUESTION_PLACES];
    let question = path_question(list, formula, start.gates, start.literal, 0, &mut question)
        .and_then(|len| question.get(..len))
        .context("no room for a question")?;
    let mut work = [0; QUESTION_PLACES];
    accepted(rt, check_refutation(question, refutation, &mut work))?;
    let mut values = [0; QUESTION_PLACES];
    let drawn = interpolate(
        list,
        question,
        refutation,
        formula,
        start.gates,
        &mut values,
    )
    .ok()
    .context("no room for the drawing")?;
    show_drawn(rt, &work, refutation, drawn)
}

// Says how large a refutation was, and what was drawn from it.
fn show_drawn(
    rt: &HostRuntime,
    work: &[u32],
    refutation: &[u32],
    drawn: Root,
) -> anyhow::Result<()> {
    let steps = number_at(refutation, 0);
    let end = number_at(work, steps as usize);
    let literals = end.saturating_sub(steps.saturating_add(1));
    let literal = drawn.literal.number();
    let gates = drawn.gates;
    println!(rt;
        "  path question refuted in {steps} steps with {literals} literals; formula drawn: literal {literal}, {gates} gates"
    )?;
    Ok(())
}

// The start formula, and the questions that begin with it. With a refutation, that is judged too.
fn pose(rt: &HostRuntime, list: &[u32], refutation: Option<&[u32]>) -> anyhow::Result<()> {
    let mut formula = [0; FORMULA_PLACES];
    let start = start_formula(list, &mut formula).context("no room for the start formula")?;
    let literal = start.literal.number();
    let gates = start.gates;
    println!(rt; "  start formula: literal {literal}, {gates} gates")?;
    ask(rt, list, &formula, start)?;
    match refutation {
        Some(refutation) => judge(rt, list, &mut formula, start, refutation),
        None => Ok(()),
    }
}

fn walk(
    rt: &HostRuntime,
    name: &str,
    latches: &str,
    refutation: Option<&[u32]>,
) -> anyhow::Result<()> {
    let text = fs::read(rt, name)?;
    let mut list = [0; SHEET_PLACES];
    let places = accepted(rt, read(&text, &mut list))?;
    let sheet = LegalSheet::new(&list).context("what was read is no sheet")?;
    println!(rt;
        "{name}: {} inputs, {} latches, {} gates",
        sheet.inputs(),
        sheet.latches(),
        sheet.gates()
    )?;
    print!(rt; "  list")?;
    show_numbers(rt, &list[..places])?;
    write_back(rt, &list, &text)?;
    println!(rt; "  inputs: announce, value, weight; latches: {latches}")?;
    run(rt, &list, sheet)?;
    pose(rt, &list, refutation)
}

fn main(rt: HostRuntime) -> anyhow::Result<()> {
    println!(rt; "A hoop driver that also sends the thread weight, beside an older needle board:")?;
    walk(
        &rt,
        "hoop-driver.sheet",
        "armed, wrong",
        Some(&HOOP_DRIVER_REFUTED),
    )?;
    println!(rt;
        "The same pair, repaired: the driver holds a weight back while a number is pending:"
    )?;
    walk(
        &rt,
        "hoop-driver-repaired.sheet",
        "armed, wrong, pending",
        None,
    )
}
