// Machines that are stepped, and the values of clauses and gates.
use crate::common::{Refusal, refusal_by, refused};
use machine::depth::depth_limit;
use machine::simulate::{simulate, simulate_bits};
use sheet::fault::Layer;
use signal::clauses::{falsifies_clause, satisfies_clause};
use signal::gate_values;
use signal::kinds::Tri;
use std::test::Fail;

// One press of a foot switch: sheets/one-press.sheet.
const ONE_PRESS: [u32; 12] = [1, 2, 2, 10, 8, 0, 5, 0, 7, 2, 6, 4];

#[test]
fn one_press(rt: HostRuntime) -> Result<(), Fail> {
    let mut state = [false, false];
    let bad = simulate_bits(&ONE_PRESS, &mut state, &[true]).map_err(Refusal::from)?;
    assert!(rt; !bad);
    assert_eq!(rt; state, [true, true]);
    let bad = simulate_bits(&ONE_PRESS, &mut state, &[false]).map_err(Refusal::from)?;
    assert!(rt; bad);
    assert_eq!(rt; state, [false, false]);
    Ok(())
}

#[test]
fn one_press_or_none(rt: HostRuntime) -> Result<(), Fail> {
    let mut state = [Tri::Zero, Tri::Zero];
    let bad = simulate(&ONE_PRESS, &mut state, &[Tri::Unset]).map_err(Refusal::from)?;
    assert!(rt; bad == Tri::Zero);
    assert!(rt; state == [Tri::Unset, Tri::One]);
    let bad = simulate(&ONE_PRESS, &mut state, &[Tri::Zero]).map_err(Refusal::from)?;
    assert!(rt; bad == Tri::Unset);
    Ok(())
}

fn refusal_of(sheet: &[u32], state: &mut [bool], inputs: &[bool]) -> Option<Refusal> {
    refusal_by(Layer::Machine, simulate_bits(sheet, state, inputs))
}

#[test]
fn refused_steps(rt: HostRuntime) {
    let mut state = [true, false];
    let no_such_literal = [1, 2, 2, 12, 8, 0, 5, 0, 7, 2, 6, 4];
    assert_eq!(rt;
        refusal_of(&no_such_literal, &mut state, &[true]),
        refused(21, 0)
    );
    assert_eq!(rt; refusal_of(&[], &mut state, &[true]), refused(21, 0));
    assert_eq!(rt;
        refusal_of(&ONE_PRESS, &mut [true], &[true]),
        refused(31, 0)
    );
    assert_eq!(rt;
        refusal_of(&ONE_PRESS, &mut [true; 3], &[true]),
        refused(31, 0)
    );
    assert_eq!(rt; refusal_of(&ONE_PRESS, &mut state, &[]), refused(31, 1));
    assert_eq!(rt;
        refusal_of(&ONE_PRESS, &mut state, &[true, true]),
        refused(31, 1)
    );
    assert_eq!(rt; state, [true, false]);
}

#[test]
fn limits_of_depth(rt: HostRuntime) {
    assert_eq!(rt; depth_limit(&ONE_PRESS).ok(), Some(4));
    assert_eq!(rt; depth_limit(&[0, 1, 0, 2, 0, 0, 7]).ok(), None);
}

#[test]
fn clauses(rt: HostRuntime) {
    // NOT 0, OR 1
    let clause = [1, 2];
    assert!(rt; satisfies_clause(&[1, 1], &clause));
    assert!(rt; !satisfies_clause(&[1, 0], &clause));
    assert!(rt; falsifies_clause(&[1, 0], &clause));
    assert!(rt; !falsifies_clause(&[1, 2], &clause));
    assert!(rt; !falsifies_clause(&[2, 0], &clause));
    assert!(rt; !satisfies_clause(&[], &[]) && falsifies_clause(&[], &[]));
}

#[test]
fn gates(rt: HostRuntime) {
    // Nodes 0 and 1, then both, neither, and one of the two.
    let mut nodes = [Tri::One, Tri::Unset, Tri::Zero, Tri::Zero, Tri::Zero];
    gate_values(&[2, 0, 3, 1, 7, 5], 2, &mut nodes);
    assert!(rt; nodes.ends_with(&[Tri::Unset, Tri::Zero, Tri::Unset]));
    let mut short = [Tri::One, Tri::One, Tri::Zero];
    gate_values(&[2, 0, 3, 1], 2, &mut short);
    assert!(rt; short[2] == Tri::One);
}
