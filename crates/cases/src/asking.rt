// Formulas and questions.
use crate::reading::largest;
use formula::builder::Builder;
use formula::start::{start_formula, start_size};
use question::build::{inclusion_question, path_question, start_question};
use question::read::clause;
use sheet::literal::Literal;
use std::test::Fail;

// sheets/idle-latch.sheet: one latch, which stays 0.
const IDLE: [u32; 6] = [0, 1, 0, 2, 0, 0];

// crates/tour/data/hoop-driver.sheet.
const HOOP: [u32; 18] = [3, 2, 5, 10, 15, 0, 21, 0, 8, 5, 13, 3, 8, 4, 16, 6, 19, 11];

#[test]
fn ands_and_ors(rt: HostRuntime) {
    let mut gates = Builder { width: 4, count: 0 };
    let mut list = [9; 3];
    let six = Literal::from_number(6);
    let four = Literal::from_number(4);
    assert_eq!(rt;
        gates
            .and(&mut list, six, six.opposite())
            .map(Literal::number),
        Some(0)
    );
    assert_eq!(rt;
        gates
            .and(&mut list, six, Literal::from_number(1))
            .map(Literal::number),
        Some(6)
    );
    assert_eq!(rt;
        gates
            .or(&mut list, six, Literal::from_number(1))
            .map(Literal::number),
        Some(1)
    );
    assert_eq!(rt; list, [9; 3]);
    assert_eq!(rt;
        gates.or(&mut list, four, six).map(Literal::number),
        Some(9)
    );
    assert_eq!(rt; list, [7, 5, 9]);
    assert_eq!(rt; gates.and(&mut list, four, six).map(Literal::number), None);
    assert_eq!(rt; gates.count, 1);
}

#[test]
fn start_formulas(rt: HostRuntime) -> Result<(), Fail> {
    let mut list = [9; 3];
    assert_eq!(rt; start_size(&HOOP), 1);
    let start = start_formula(&HOOP, &mut list).ok_or("no room")?;
    assert_eq!(rt; (start.literal.number(), start.gates), (22, 1));
    assert_eq!(rt; list, [11, 9, 0]);
    let mut short = [9; 1];
    assert!(rt; start_formula(&HOOP, &mut short).is_none());
    assert_eq!(rt; short, [9; 1]);
    assert_eq!(rt; start_size(&IDLE), 0);
    Ok(())
}

#[test]
fn path_of_the_idle_latch(rt: HostRuntime) {
    let mut list = [9; 19];
    let r = Literal::from_number(3);
    assert_eq!(rt; path_question(&IDLE, &[], 0, r, 0, &mut list), Some(18));
    assert_eq!(rt;
        list,
        [
            4, 6, 4, 10, 11, 13, 15, 16, 17, 18, 1, 0, 7, 1, 6, 3, 5, 6, 0,
        ]
    );
    assert_eq!(rt; clause(&list, 1), [0, 7].as_slice());
    assert_eq!(rt; clause(&list, 5), [6].as_slice());
    let mut short = [9; 17];
    assert_eq!(rt; path_question(&IDLE, &[], 0, r, 0, &mut short), None);
    assert_eq!(rt; path_question(&IDLE, &[], 0, r, 31, &mut list), None);
    assert_eq!(rt; short, [9; 17]);
}

#[test]
fn questions_of_the_hoop_driver(rt: HostRuntime) {
    let formula = [11, 9];
    let r = Literal::from_number(22);
    let p = Literal::from_number(11);
    let mut list = [0; 300];
    assert_eq!(rt; start_question(&HOOP, &formula, 1, r, &mut list), Some(70));
    assert!(rt; list.starts_with(&[12, 21, 0]));
    assert_eq!(rt;
        path_question(&HOOP, &formula, 1, r, 2, &mut list),
        Some(264)
    );
    assert!(rt; list.starts_with(&[45, 81, 24]));
    assert_eq!(rt;
        inclusion_question(&HOOP, &formula, 1, p, r, &mut list),
        Some(70)
    );
    assert!(rt; list.starts_with(&[12, 21, 0]));
    let mut short = [9; 69];
    assert_eq!(rt; start_question(&HOOP, &formula, 1, r, &mut short), None);
    assert_eq!(rt;
        inclusion_question(&HOOP, &formula, 1, p, r, &mut short),
        None
    );
    assert_eq!(rt; start_question(&HOOP, &[11], 1, r, &mut list), None);
    assert_eq!(rt; short, [9; 69]);
}

#[test]
fn largest_path(rt: HostRuntime) {
    let sheet = largest();
    let mut short = [0; 68_565];
    let mut list = [0; 68_566];
    let r = Literal::from_number(1);
    assert_eq!(rt; path_question(&sheet, &[], 0, r, 30, &mut short), None);
    assert_eq!(rt;
        path_question(&sheet, &[], 0, r, 30, &mut list),
        Some(68_566)
    );
    assert!(rt; list.starts_with(&[7_968, 20_722]));
}
