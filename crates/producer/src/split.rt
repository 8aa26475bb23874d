// The splitting procedure: sets variables in order, to 0 first, and resolves the clauses that its branches end at.
ghost use Rattle.std.specs.Prelude.{◌≡◌, ℕ, ◌+◌, ◌*◌, ◌^◌, ◌<◌, ◌≤◌, true, List, [], length, take, replicate, Some, None, slice_index};
ghost use Rattle.question.specs.Questions.{variable_count};
ghost use Rattle.producer.specs.Honesty.{Honest, FewSteps, EndsAtOnce, ByTheRule};
ghost use Rattle.producer.specs.Machine.{Stood, Moved, Ready, finished};
ghost use Rattle.producer.specs.Procedure.{End, Found, fits, put, split, roomy, reply_at, answer_at, splitting, splits};

use crate::interface::{Producer, Reply};
use crate::reading::find_false;
use crate::rows::{mark_line, pop, push, row};
use answer::steps::Step;
use lists::{counted, counted_len};
use question::read::{clause_count, variable_count};
use std::ops::ControlFlow;

// Where the procedure stands: how many variables are set, how many steps are made, and the line that ends the branch, if one
// does.
#[derive(Clone, Copy, Default)]
pub(crate) struct State {
    pub depth: u32,
    pub steps: u32,
    pub line: Option<u32>,
}

// Writes the step after `i` steps.
fn put_step(answer: &mut [u32], i: u32, t: Step)
    requires { 1 + 3 * (i + 1) ≤ length answer.old }
    ensures { answer.new ≡ put answer.old i t }
{
    let before = 3 * i as usize;
    answer[before + 1] = t.first;
    answer[before + 2] = t.second;
    answer[before + 3] = t.pivot;
}

// Whether a step after `steps` steps has room in an answer list of `places` places.
fn has_room(places: usize, steps: u32) -> bool
    ensures { result ≡ fits places steps }
{
    steps < 16_777_216 && 3 * steps as usize + 4 <= places
}

// Goes into the branch of the values set so far.
fn descend(question: &[u32], work: &mut [u32], v: u32, at: State) -> ControlFlow<Reply, State>
    requires { Ready question.now v work.old at }
    ensures { (n : ℕ) (a : List ℕ) (all : End) → at.line ≡ None → Stood question.now n v work.old a at all → Moved question.now n v work.old work.new a at all result }
{
    if let Some(k) = find_false(question, &work[..v as usize], at.depth) {
        mark_line(question, work, v, k);
        return ControlFlow::Continue(State {
            line: Some(k),
            ..at
        });
    }
    if at.depth == v {
        return ControlFlow::Break(Reply::Assignment);
    }
    work[at.depth as usize] = 0;
    ControlFlow::Continue(State {
        depth: at.depth + 1,
        ..at
    })
}

// Goes back from a branch that ended at a line.
fn ascend(
    question: &[u32],
    answer: &mut [u32],
    work: &mut [u32],
    v: u32,
    at: State,
    line: u32,
) -> ControlFlow<Reply, State>
    requires { Ready question.now v work.old at }
    ensures { (all : End) → at.line ≡ Some line → Stood question.now (length answer.old) v work.old answer.old at all → Moved question.now (length answer.old) v work.old work.new answer.new at all result }
{
    let Some(d) = at.depth.checked_sub(1) else {
        return ControlFlow::Break(Reply::Refutation);
    };
    let marks = row(v, v as usize + 2);
    if work[marks + d as usize] == 0 {
        work[d as usize] = 2;
        return ControlFlow::Continue(State { depth: d, ..at });
    }
    if work[d as usize] == 0 {
        push(work, v, d, line);
        return ControlFlow::Continue(State { line: None, ..at });
    }
    if !has_room(answer.len(), at.steps) {
        return ControlFlow::Break(Reply::TooLong);
    }
    let first = pop(work, v, d);
    put_step(
        answer,
        at.steps,
        Step {
            first,
            second: line,
            pivot: d,
        },
    );
    ControlFlow::Continue(State {
        depth: d,
        steps: at.steps + 1,
        line: Some(clause_count(question) + at.steps),
    })
}

// One turn of the procedure: where it stands then, or what it replies.
fn turn(
    question: &[u32],
    answer: &mut [u32],
    work: &mut [u32],
    v: u32,
    at: State,
) -> ControlFlow<Reply, State>
    requires { Ready question.now v work.old at }
    ensures { (all : End) → Stood question.now (length answer.old) v work.old answer.old at all → Moved question.now (length answer.old) v work.old work.new answer.new at all result }
{
    match at.line {
        Some(line) => ascend(question, answer, work, v, at, line),
        None => descend(question, work, v, at),
    }
}

// Leaves the values as the answer, and zeros behind them.
fn write_values(answer: &mut [u32], work: &[u32], v: u32)
    requires { (v ≤ length answer.old) × (v ≤ length work.now) }
    ensures { answer.new ≡ answer_at (length answer.old) (Found (take v work.now)) }
{
    let n = v as usize;
    answer[..n].copy_from_slice(&work[..n]);
    answer[n..].fill(0);
}

// Makes the answer what a reply says that it is; it has the steps already.
fn finish(answer: &mut [u32], work: &[u32], v: u32, steps: u32, reply: Reply)
    requires { (v ≤ length answer.old) × (v ≤ length work.now) }
    ensures { answer.new ≡ finished answer.old work.now v steps reply }
{
    match reply {
        Reply::Assignment => write_values(answer, work, v),
        Reply::Refutation => {
            if let Some(count) = answer.first_mut() {
                *count = steps;
            }
        }
        Reply::TooLong => answer.fill(0),
    }
}

// Splits on all variables, of which none is set, with an answer list that is zero.
fn run(question: &[u32], answer: &mut [u32], work: &mut [u32], v: u32) -> Reply
    requires all { v ≡ variable_count question.now }
    requires room { roomy question.now (length answer.old) (length work.old) ≡ true }
    requires space { length work.old ≤ 2 ^ 28 }
    requires size { length question.now ≤ 2 ^ 28 }
    requires blank { answer.old ≡ replicate (length answer.old) 0 }
    requires unset { (i : ℕ) → i < v → slice_index work.old i ≡ 2 }
    ensures replies { result ≡ reply_at (split question.now (length answer.old) v [] []) }
    ensures answers { answer.new ≡ answer_at (length answer.old) (split question.now (length answer.old) v [] []) }
{
    let mut at = State::default();
    loop {
        match turn(question, answer, work, v, at) {
            ControlFlow::Continue(next) => at = next,
            ControlFlow::Break(reply) => {
                finish(answer, work, v, at.steps, reply);
                return reply;
            }
        }
    }
}

// Whether the lists have room to begin.
fn is_roomy(question: &[u32], places: usize, room: usize) -> bool
    requires { length question.now ≤ 2 ^ 28 }
    ensures { result ≡ roomy question.now places room }
{
    let v = variable_count(question);
    let side = u128::from(v) + 4;
    v as usize <= places
        && side * side <= room as u128
        && clause_count(question) as usize <= question.len()
}

// Splits where there is room to begin, with an answer list that is zero.
fn attempt(question: &[u32], answer: &mut [u32], work: &mut [u32]) -> Reply
    requires space { length work.old ≤ 2 ^ 28 }
    requires size { length question.now ≤ 2 ^ 28 }
    requires blank { answer.old ≡ replicate (length answer.old) 0 }
    ensures replies { result ≡ (splitting question.now (length answer.old) (length work.old)).0 }
    ensures answers { answer.new ≡ (splitting question.now (length answer.old) (length work.old)).1 }
{
    if !is_roomy(question, answer.len(), work.len()) {
        return Reply::TooLong;
    }
    let v = variable_count(question);
    work[..v as usize].fill(2);
    run(question, answer, work, v)
}

// Splits, and leaves a working list that is zero.
fn decide(question: &[u32], answer: &mut [u32], work: &mut [u32]) -> Reply
    requires space { length work.old ≤ 2 ^ 28 }
    requires size { length question.now ≤ 2 ^ 28 }
    ensures { (result, answer.new, work.new) ≡ splitting question.now (length answer.old) (length work.old) }
{
    answer.fill(0);
    let reply = attempt(question, answer, work);
    work.fill(0);
    reply
}

// What the procedure does with questions.
pub fn splitting_is_honest() -> bool
    ensures says_so { result ≡ true }
    ensures its_replies_are_true { Honest }
    ensures it_makes_few_steps { FewSteps }
    ensures a_branch_ends_at_the_lowest_false_clause { EndsAtOnce }
    ensures on_questions_it_is_the_plain_rule { ByTheRule }
{
    Splitting::is_honest()
}

// Answers every question for which there is room.
#[derive(Clone, Copy)]
pub struct Splitting;

impl Producer for Splitting {
    ghost honest = { true };

    ghost replies = { λ _ q a w r a2 w2 _. (r, a2, w2) ≡ splits q a w };

    fn is_honest() -> bool {
        true
    }

    fn answer(&mut self, question: &[u32], answer: &mut [u32], work: &mut [u32]) -> Reply {
        let room = counted_len(answer.len());
        let space = counted_len(work.len());
        decide(counted(question), &mut answer[..room], &mut work[..space])
    }
}
