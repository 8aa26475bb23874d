// Answers: assignments and refutations that are accepted and refused.
use crate::common::{Refusal, has_only, refusal_by, refused};
use answer::assignments::satisfies;
use answer::refutations::check_refutation;
use interpolant::draw::{Short, interpolate};
use question::build::path_question;
use sheet::fault::Layer;
use sheet::literal::Literal;
use std::iter;
use std::test::Fail;

// The path question at bound 0 of sheets/idle-latch.sheet, from its start state.
const IDLE: [u32; 18] = [4, 6, 4, 10, 11, 13, 15, 16, 17, 18, 1, 0, 7, 1, 6, 3, 5, 6];

// That of sheets/one-press.sheet, and an assignment that satisfies it: one press.
const PRESS: [u32; 74] = [
    13, 23, 15, 27, 28, 30, 32, 35, 37, 39, 42, 44, 46, 48, 50, 52, 54, 57, 58, 59, 61, 63, 66, 68,
    70, 73, 74, 1, 7, 9, 2, 9, 3, 6, 8, 6, 11, 4, 11, 5, 7, 10, 8, 17, 9, 16, 5, 19, 4, 18, 7, 25,
    5, 25, 4, 6, 24, 24, 13, 19, 21, 14, 21, 15, 18, 20, 18, 23, 16, 23, 17, 19, 22, 22,
];

const PRESSED: [u32; 13] = [0, 1, 0, 0, 1, 0, 0, 0, 1, 1, 0, 1, 1];

// Two latches that both follow the first, their path question at bound 0, and a refutation of it.
const TWO_LATCHES: [u32; 8] = [0, 2, 0, 2, 2, 0, 2, 0];

const TWO: [u32; 34] = [
    7, 11, 9, 15, 16, 18, 20, 22, 24, 26, 28, 31, 32, 33, 34, 1, 2, 9, 3, 8, 2, 11, 3, 10, 5, 13,
    3, 13, 2, 4, 12, 12, 7, 8,
];

const TWO_REFUTED: [u32; 16] = [5, 1, 4, 1, 10, 11, 4, 12, 3, 5, 8, 6, 6, 13, 14, 1];

// Clauses that cancel two variables at once: 0 or 1, not 0 or not 1, and 2, not 2.
const CANCELS: [u32; 14] = [3, 4, 0, 8, 10, 12, 13, 14, 0, 2, 1, 3, 4, 5];

// Assignments of the press that are refused, with the number and the place of the refusal.
const ASSIGNED: [(&[u32], u32, u32); 10] = [
    (&[0, 1, 0, 0, 1, 0, 0, 0, 1, 1, 0, 1], 31, 0),
    (&[0, 1, 0, 0, 1, 0, 0, 0, 1, 1, 0, 1, 1, 0], 31, 0),
    (&[], 31, 0),
    (&[2, 1, 0, 0, 1, 0, 0, 0, 1, 1, 0, 1, 1], 32, 0),
    (&[0, 1, 0, 0, 1, 2, 0, 0, 1, 1, 0, 1, 1], 32, 5),
    (&[0, 1, 0, 0, 1, 0, 0, 0, 1, 1, 0, 1, 2], 32, 12),
    (&[1, 1, 0, 0, 1, 0, 0, 0, 1, 1, 0, 1, 1], 33, 0),
    (&[0, 0, 0, 0, 1, 0, 0, 0, 1, 1, 0, 1, 1], 33, 2),
    (&[0, 1, 0, 0, 1, 0, 1, 0, 1, 1, 0, 1, 1], 33, 15),
    (&[0, 1, 0, 0, 1, 0, 0, 0, 1, 1, 0, 1, 0], 33, 13),
];

#[derive(Clone, Copy)]
struct Damaged {
    question: &'static [u32],
    refutation: &'static [u32],
    room: usize,
    number: u32,
    place: u32,
}

const DAMAGED: [Damaged; 22] = [
    Damaged {
        question: &IDLE,
        refutation: &[],
        room: 4,
        number: 41,
        place: 0,
    },
    Damaged {
        question: &IDLE,
        refutation: &[0],
        room: 4,
        number: 41,
        place: 0,
    },
    Damaged {
        question: &IDLE,
        refutation: &[2, 5, 1, 3, 6, 0],
        room: 4,
        number: 41,
        place: 0,
    },
    Damaged {
        question: &IDLE,
        refutation: &[16777217, 5, 1, 3],
        room: 4,
        number: 41,
        place: 0,
    },
    Damaged {
        question: &IDLE,
        refutation: &[2, 6, 1, 3, 6, 0, 0],
        room: 4,
        number: 42,
        place: 0,
    },
    Damaged {
        question: &IDLE,
        refutation: &[2, 5, 6, 3, 6, 0, 0],
        room: 4,
        number: 42,
        place: 0,
    },
    Damaged {
        question: &IDLE,
        refutation: &[2, 5, 1, 3, 7, 0, 0],
        room: 4,
        number: 42,
        place: 1,
    },
    Damaged {
        question: &IDLE,
        refutation: &[2, 1, 5, 3, 6, 0, 0],
        room: 4,
        number: 43,
        place: 0,
    },
    Damaged {
        question: &IDLE,
        refutation: &[2, 5, 1, 2, 6, 0, 0],
        room: 4,
        number: 43,
        place: 0,
    },
    Damaged {
        question: &IDLE,
        refutation: &[2, 5, 1, 3, 0, 6, 0],
        room: 4,
        number: 43,
        place: 1,
    },
    Damaged {
        question: &IDLE,
        refutation: &[1, 5, 1, 2147483648],
        room: 4,
        number: 43,
        place: 0,
    },
    Damaged {
        question: &CANCELS,
        refutation: &[1, 0, 1, 0],
        room: 9,
        number: 44,
        place: 0,
    },
    Damaged {
        question: &CANCELS,
        refutation: &[1, 0, 1, 0],
        room: 0,
        number: 44,
        place: 0,
    },
    Damaged {
        question: &CANCELS,
        refutation: &[1, 0, 1, 1],
        room: 9,
        number: 44,
        place: 0,
    },
    Damaged {
        question: &CANCELS,
        refutation: &[2, 2, 3, 2, 0, 1, 0],
        room: 9,
        number: 44,
        place: 1,
    },
    Damaged {
        question: &IDLE,
        refutation: &[2, 5, 1, 3, 6, 0, 0],
        room: 3,
        number: 45,
        place: 0,
    },
    Damaged {
        question: &IDLE,
        refutation: &[2, 5, 1, 3, 6, 0, 0],
        room: 2,
        number: 45,
        place: 0,
    },
    Damaged {
        question: &IDLE,
        refutation: &[2, 5, 1, 3, 6, 0, 0],
        room: 0,
        number: 45,
        place: 0,
    },
    Damaged {
        question: &TWO,
        refutation: &[5, 1, 4, 1, 10, 11, 4, 12, 3, 5, 8, 6, 6, 13, 14, 1],
        room: 8,
        number: 45,
        place: 1,
    },
    Damaged {
        question: &IDLE,
        refutation: &[1, 5, 1, 3],
        room: 4,
        number: 46,
        place: 0,
    },
    Damaged {
        question: &TWO,
        refutation: &[1, 1, 4, 1],
        room: 9,
        number: 46,
        place: 0,
    },
    Damaged {
        question: &TWO,
        refutation: &[2, 1, 4, 1, 10, 11, 4],
        room: 9,
        number: 46,
        place: 1,
    },
];

// What a refutation is refused with, in a working list of `room` places, if these are zero then.
fn refusal_of(question: &[u32], refutation: &[u32], room: usize) -> Option<Refusal> {
    let mut work = [9; 9];
    let work = &mut work[..room.min(9)];
    let refusal = refusal_by(
        Layer::Refutation,
        check_refutation(question, refutation, work),
    )?;
    has_only(work, &[]).then_some(refusal)
}

#[test]
fn the_questions(rt: HostRuntime) {
    let mut list = [0; 34];
    let r = Literal::from_number(6);
    assert_eq!(rt;
        path_question(&TWO_LATCHES, &[5, 3], 1, r, 0, &mut list),
        Some(34)
    );
    assert!(rt; list == TWO);
    let press = [1, 2, 2, 10, 8, 0, 5, 0, 7, 2, 6, 4];
    let mut list = [0; 74];
    let r = Literal::from_number(12);
    assert_eq!(rt;
        path_question(&press, &[7, 5], 1, r, 0, &mut list),
        Some(74)
    );
    assert!(rt; list == PRESS);
}

#[test]
fn assignments(rt: HostRuntime) {
    assert!(rt; satisfies(&PRESS, &PRESSED).is_ok());
    for (numbers, number, place) in &ASSIGNED {
        let refusal = refusal_by(Layer::Assignment, satisfies(&PRESS, numbers));
        assert_eq!(rt; refusal, refused(*number, *place), "at {numbers:?}");
    }
}

#[test]
fn damaged_refutations(rt: HostRuntime) {
    for (i, row) in DAMAGED.iter().enumerate() {
        let refusal = refusal_of(row.question, row.refutation, row.room);
        assert_eq!(rt; refusal, refused(row.number, row.place), "row {i}");
    }
}

#[test]
fn refuted(rt: HostRuntime) {
    let refutation = [2, 5, 1, 3, 6, 0, 0];
    let mut work = [9; 4];
    assert!(rt; check_refutation(&IDLE, &refutation, &mut work).is_ok());
    assert_eq!(rt; work, [3, 4, 4, 0]);
    let mut work = [9; 12];
    assert!(rt; check_refutation(&TWO, &TWO_REFUTED, &mut work).is_ok());
    assert_eq!(rt; work, [6, 8, 9, 10, 11, 11, 9, 10, 10, 2, 3, 0]);
    let mut short = [9; 3];
    assert!(rt; check_refutation(&IDLE, &refutation, &mut short).is_err());
    assert_eq!(rt; short, [0; 3]);
}

// 0 or 1, not 0 or not 2: joined on 0 they give 1 or not 2. Then not 1, and 2.
#[test]
fn a_resolvent(rt: HostRuntime) {
    let question = [3, 4, 0, 8, 10, 12, 13, 14, 0, 2, 1, 5, 3, 4];
    let mut work = [9; 7];
    assert!(rt; check_refutation(&question, &[3, 0, 1, 0, 4, 2, 1, 3, 5, 2], &mut work).is_ok());
    assert_eq!(rt; work, [4, 6, 7, 7, 2, 5, 5]);
}

#[test]
fn drawn(rt: HostRuntime) -> Result<(), Fail> {
    let mut formula = [0; 8];
    let mut values = [9; 9];
    let idle = [0, 1, 0, 2, 0, 0];
    let drawn = interpolate(
        &idle,
        &IDLE,
        &[2, 5, 1, 3, 6, 0, 0],
        &mut formula,
        0,
        &mut values,
    )?;
    assert_eq!(rt; (drawn.literal.number(), drawn.gates), (3, 0));
    assert_eq!(rt; values, [0, 3, 2, 0, 1, 1, 3, 3, 0]);
    let mut formula = [5, 3, 0, 0, 0, 0, 0, 0];
    let mut values = [9; 17];
    let drawn = interpolate(
        &TWO_LATCHES,
        &TWO,
        &TWO_REFUTED,
        &mut formula,
        1,
        &mut values,
    )?;
    assert_eq!(rt; (drawn.literal.number(), drawn.gates), (10, 3));
    assert_eq!(rt; formula, [5, 3, 5, 2, 9, 5, 0, 0]);
    assert_eq!(rt;
        values,
        [0, 3, 2, 5, 4, 0, 0, 0, 0, 1, 1, 9, 9, 10, 0, 10, 0]
    );
    let mut few = [9; 15];
    let mut short = [5, 3, 0, 0, 0];
    assert_eq!(rt; shortage(&mut short, &mut few), Some(Short::LineValues));
    assert!(rt; short == [5, 3, 0, 0, 0] && few == [9; 15]);
    assert_eq!(rt; shortage(&mut short, &mut values), Some(Short::Formula));
    assert!(rt; short == [0; 5] && values == [0; 17]);
    Ok(())
}

// Which list is too short for the drawing of the two latches.
fn shortage(formula: &mut [u32], values: &mut [u32]) -> Option<Short> {
    interpolate(&TWO_LATCHES, &TWO, &TWO_REFUTED, formula, 1, values).err()
}

// Variable 0, each variable implies the next, and not the last: 3,000 variables.
fn chain() -> [u32; 9005] {
    let mut question = [0; 9005];
    // The counts and the first clause's place, the places of the others, where the last ends, and every literal in order.
    let numbers = [3000, 3001, 0, 3005]
        .into_iter()
        .chain((3006..9005).step_by(2))
        .chain(iter::once(9005))
        .chain(0..6000);
    for (place, number) in question.iter_mut().zip(numbers) {
        *place = number;
    }
    question
}

// Along the chain, a step for each variable.
fn chain_refutation() -> [u32; 9001] {
    let mut refutation = [0; 9001];
    refutation[0] = 3000;
    let (steps, _) = refutation[1..].as_chunks_mut();
    for (i, step) in steps.iter_mut().enumerate() {
        let i = i as u32;
        let first = if i == 0 { 0 } else { 3000 + i };
        *step = [first, i + 1, i];
    }
    refutation
}

#[test]
fn a_long_refutation(rt: HostRuntime) {
    let question = chain();
    let refutation = chain_refutation();
    let mut work = [9; 6000];
    assert!(rt; check_refutation(&question, &refutation, &mut work).is_ok());
    assert!(rt; work[0] == 3001 && work[3000] == 6000);
    let mut short = [9; 5999];
    let shortage = refusal_by(
        Layer::Refutation,
        check_refutation(&question, &refutation, &mut short),
    );
    assert_eq!(rt; shortage, refused(45, 2998));
}
