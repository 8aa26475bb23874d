// One step of a machine, by the same code at every kind of signal.
ghost use Rattle.std.specs.Prelude.{◌≡◌, ℕ, ◌+◌, ◌/◌, ◌<◌, ◌≤◌, Bool, false, ◌++◌, length, take, drop, replicate, IfOk, OnOk};
ghost use Rattle.lists.specs.Counted.{counted, on_counted};
ghost use Rattle.sheet.specs.Sheets.{sheet_of, input_count, latch_count, node_count};
ghost use Rattle.signal.specs.Circuit.{node_of};
ghost use Rattle.signal.specs.Kinds.{bit_ops};
ghost use Rattle.machine.specs.Fits.{ValuesFit};
ghost use Rattle.machine.specs.Simulate.{next_signals, step_signals, simulated, MayBe, CoversStep, IsStep};

use crate::refuse;
use sheet::fault::{Cause, Fault};
use sheet::legal::LegalSheet;
use sheet::literal::Literal;
use signal::{Signal, gate_values};

// A legal sheet has no more nodes: the constant, 24 inputs, 24 latches and 200 gates.
const MOST_NODES: usize = 249;

// The signal of a literal, where each node has one.
fn literal_signal<S: Signal>(nodes: &[S], literal: Literal) -> S
    requires { literal.0 / 2 < length nodes.now }
    ensures { result ≡ node_of S.ops nodes.now literal.0 }
{
    let signal = nodes[literal.node() as usize];
    if literal.is_negated() {
        signal.not()
    } else {
        signal
    }
}

// Gives the inputs and the latches, which come behind the constant, their signals.
fn feed<S: Copy>(inputs: &[S], state: &[S], nodes: &mut [S])
    requires { 1 + length inputs.now + length state.now ≤ length nodes.old }
    ensures { nodes.new ≡ take 1 nodes.old ++ (inputs.now ++ (state.now ++ drop (1 + length inputs.now + length state.now) nodes.old)) }
{
    let first_latch = 1 + inputs.len();
    nodes[1..first_latch].copy_from_slice(inputs);
    nodes[first_latch..first_latch + state.len()].copy_from_slice(state);
}

// Gives each latch the signal of its `next`.
fn set_latches<S: Signal>(sheet: LegalSheet<'_>, nodes: &[S], state: &mut [S])
    requires nodes { length nodes.now ≡ node_count sheet.numbers.now }
    requires latches { length state.old ≡ latch_count sheet.numbers.now }
    ensures { state.new ≡ next_signals S.ops sheet.entry.numbers.now nodes.now }
{
    for (i, latch) in state.iter_mut().enumerate() {
        *latch = literal_signal(nodes, sheet.next(i as u32));
    }
}

// A step, where the lists have the sheet's sizes.
fn step<S: Signal>(sheet: LegalSheet<'_>, state: &mut [S], inputs: &[S]) -> S
    requires latches { length state.old ≡ latch_count sheet.numbers.now }
    requires inputs { length inputs.now ≡ input_count sheet.numbers.now }
    ensures { (result, state.new) ≡ step_signals S.ops sheet.entry.numbers.now inputs.now state.old }
{
    let scratch: &mut [S] = &mut [S::bit(false); MOST_NODES];
    let nodes = &mut scratch[0..sheet.width() as usize];
    feed(inputs, state, nodes);
    gate_values(sheet.gate_pairs(), sheet.first_gate() as usize, nodes);
    set_latches(sheet, nodes, state);
    literal_signal(nodes, sheet.bad())
}

// One step of the machine that `sheet` lays out: the signal of its bad literal, and in `state` the next state.
// It refuses a list that is not legal, a state with not exactly a signal for each latch, and inputs with not exactly one for
// each input. A refusal leaves the state as it is.
pub fn simulate<S: Signal>(sheet: &[u32], state: &mut [S], inputs: &[S]) -> Result<S, Fault>
    ensures steps_by_the_gate_values { (result, state.new) ≡ on_counted (simulated S.ops (counted sheet.now) (counted inputs.now)) state.old }
    ensures covers_every_choice { (i : ℕ) (c x : ℕ → Bool) → i < S.lanes → MayBe S.may i (counted state.old) c → MayBe S.may i (counted inputs.now) x → IfOk result (λ bad. CoversStep S.may i (sheet_of (counted sheet.now)) c x bad state.new) }
    ensures those_values_alone_fit_the_gates { OnOk result (ValuesFit (sheet_of (counted sheet.now))) }
{
    let Some(sheet) = LegalSheet::new(sheet) else {
        return Err(refuse(Cause::NotLegal, 0));
    };
    if state.len() != sheet.latches() as usize {
        return Err(refuse(Cause::WrongCount, 0));
    }
    if inputs.len() != sheet.inputs() as usize {
        return Err(refuse(Cause::WrongCount, 1));
    }
    Ok(step(sheet, state, inputs))
}

// The same at plain bits, where it is exactly a step of the machine.
pub fn simulate_bits(sheet: &[u32], state: &mut [bool], inputs: &[bool]) -> Result<bool, Fault>
    ensures steps_by_the_gate_values { (result, state.new) ≡ on_counted (simulated bit_ops (counted sheet.now) (counted inputs.now)) state.old }
    ensures is_a_step_of_the_machine { IfOk result (λ bad. IsStep (sheet_of (counted sheet.now)) state.old inputs.now bad state.new) }
{
    simulate(sheet, state, inputs)
}
