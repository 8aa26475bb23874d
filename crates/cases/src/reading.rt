// Sheets that are read, written and refused.
use crate::common::{Refusal, refusal_by, refused};
use sheet::fault::Layer;
use sheet::read::read;
use sheet::write::{is_legal, write};
use std::test::Fail;

// Texts that are refused, with the number and the place of the refusal.
const REFUSED: [(&str, u32, u32); 46] = [
    ("", 12, 1),
    ("\n", 13, 1),
    ("c 0 1 0", 12, 1),
    ("c 0 1 0\nl 0 0\nb 2", 12, 3),
    ("c 0 1 0\r\nl 0 0\nb 2\n", 14, 1),
    ("c  0 1 0\nl 0 0\nb 2\n", 14, 1),
    ("c 0 1 0 \nl 0 0\nb 2\n", 14, 1),
    ("c 0 1\nl 0 0\nb 2\n", 14, 1),
    ("c 0 1 0 0\nl 0 0\nb 2\n", 14, 1),
    ("C 0 1 0\nl 0 0\nb 2\n", 13, 1),
    ("c00 1 0\nl 0 0\nb 2\n", 14, 1),
    ("c 25 1 0\nl 0 0\nb 2\n", 15, 1),
    ("c 0 0 0\nb 0\n", 15, 1),
    ("c 0 25 0\n", 15, 1),
    ("c 0 1 201\n", 15, 1),
    ("c 0 1 0\n", 12, 2),
    ("c 0 1 0\nb 2\n", 13, 2),
    ("c 0 1 0\n\nb 2\n", 13, 2),
    ("c 0 1 0\nl 0\nb 2\n", 14, 2),
    ("c 0 1 0\nl 00 0\nb 2\n", 14, 2),
    ("c 0 1 0\nl 01 0\nb 2\n", 14, 2),
    ("c 0 1 0\nl 1000 0\nb 2\n", 14, 2),
    ("c 0 1 0\nl 0  0\nb 2\n", 14, 2),
    ("c 0 1 0\nl 0 0 \nb 2\n", 14, 2),
    ("c 0 1 0\nl -1 0\nb 2\n", 14, 2),
    ("c 0 1 0\nl 4 0\nb 2\n", 15, 2),
    ("c 0 1 0\nl 0 3\nb 2\n", 15, 2),
    ("c 0 2 0\nl 0 0\nb 2\n", 13, 3),
    ("c 1 1 1\nl 0 0\n", 12, 3),
    ("c 1 1 1\nl 0 0\nl 4 2\nb 2\n", 13, 3),
    ("c 1 1 1\nl 0 0\ng 4\nb 2\n", 14, 3),
    ("c 1 1 1\nl 0 0\ng 4 02\nb 2\n", 14, 3),
    ("c 1 1 1\nl 0 0\ng 8 2\nb 2\n", 15, 3),
    ("c 1 1 1\nl 0 0\ng 4 8\nb 2\n", 15, 3),
    ("c 1 1 1\nl 0 0\ng 2 4\nb 2\n", 16, 3),
    ("c 1 1 1\nl 0 0\ng 6 2\nb 2\n", 16, 3),
    ("c 1 1 1\nl 0 0\ng 4 5\nb 2\n", 16, 3),
    ("c 1 1 2\nl 0 0\ng 4 2\ng 8 2\nb 2\n", 16, 4),
    ("c 0 1 0\nl 0 0\n", 12, 3),
    ("c 0 1 0\nl 0 0\nl 0 0\nb 2\n", 13, 3),
    ("c 0 1 0\nl 0 0\nb\n", 14, 3),
    ("c 0 1 0\nl 0 0\nb 2 2\n", 14, 3),
    ("c 0 1 0\nl 0 0\nb 4\n", 15, 3),
    ("c 0 1 0\nl 0 0\nb 2\nb 2\n", 17, 4),
    ("c 0 1 0\nl 0 0\nb 2\n\n", 17, 4),
    ("c 0 1 0\nl 0 0\nb 2\n ", 17, 4),
];

// What reading refuses a text with, if it leaves the list as it is.
fn refusal_of(text: &[u8]) -> Option<Refusal> {
    let mut list = [7; 452];
    let refusal = refusal_by(Layer::Sheet, read(text, &mut list))?;
    (list == [7; 452]).then_some(refusal)
}

#[test]
fn smallest_sheet(rt: HostRuntime) {
    let mut list = [7; 8];
    assert_eq!(rt; read(b"c 0 1 0\nl 0 0\nb 2\n", &mut list).ok(), Some(6));
    assert_eq!(rt; list, [0, 1, 0, 2, 0, 0, 0, 0]);
}

#[test]
fn refused_texts(rt: HostRuntime) {
    for (text, number, place) in &REFUSED {
        assert_eq!(rt;
            refusal_of(text.as_bytes()),
            refused(*number, *place),
            "at {text:?}"
        );
    }
}

#[test]
fn at_the_limit_of_bytes(rt: HostRuntime) {
    assert_eq!(rt; refusal_of(&[b'c'; 4096]), refused(12, 1));
    assert_eq!(rt; refusal_of(&[b'c'; 4097]), refused(11, 0));
}

// The largest sheet: 24 inputs, 24 latches, 200 gates, literals up to 497, every start.
pub(crate) fn largest() -> [u32; 452] {
    let mut list = [0; 452];
    list[..4].copy_from_slice(&[24, 24, 200, 497]);
    let latches = (474..498).rev().zip((0..3).cycle());
    let gates = (97..497).step_by(2).zip((94..494).step_by(2));
    let (pairs, _) = list[4..].as_chunks_mut();
    for (pair, (first, second)) in pairs.iter_mut().zip(latches.chain(gates)) {
        *pair = [first, second];
    }
    list
}

#[test]
fn largest_sheet(rt: HostRuntime) -> Result<(), Fail> {
    let list = largest();
    let mut text = [7; 2206];
    let len = write(&list, &mut text).map_err(Refusal::from)?;
    assert_eq!(rt; len, 2205);
    assert!(rt; text.ends_with(b"\n\0"));
    let mut back = [7; 452];
    assert_eq!(rt; read(&text[0..2205], &mut back).ok(), Some(452));
    assert!(rt; back == list);
    Ok(())
}

// What writing refuses a list with.
fn refusal_of_list(list: &[u32], text: &mut [u8]) -> Option<Refusal> {
    refusal_by(Layer::Sheet, write(list, text))
}

#[test]
fn room_for_a_sheet(rt: HostRuntime) {
    let text = b"c 0 1 0\nl 0 0\nb 2\n";
    let mut short = [7; 5];
    assert_eq!(rt;
        refusal_by(Layer::Sheet, read(text, &mut short)),
        refused(18, 0)
    );
    assert_eq!(rt; short, [7; 5]);
    let mut bytes = [9; 17];
    assert_eq!(rt;
        refusal_of_list(&[0, 1, 0, 2, 0, 0], &mut bytes),
        refused(18, 0)
    );
    assert_eq!(rt; bytes, [9; 17]);
    let mut bytes = [9; 20];
    assert!(rt; write(&[0, 1, 0, 2, 0, 0, 0], &mut bytes).is_ok());
    assert_eq!(rt; bytes, *b"c 0 1 0\nl 0 0\nb 2\n\0\0");
}

const ILLEGAL: [&[u32]; 11] = [
    &[],
    &[0, 1, 0, 2, 0],
    &[25, 1, 0, 2, 0, 0],
    &[0, 0, 0, 0],
    &[0, 1, 0, 4, 0, 0],
    &[0, 1, 0, 2, 4, 0],
    &[0, 1, 0, 2, 0, 3],
    &[1, 1, 1, 2, 0, 0, 2, 4],
    &[1, 1, 1, 2, 0, 0, 6, 2],
    &[0, 1, 0, 2, 0, 0, 0, 1],
    &[u32::MAX, u32::MAX, u32::MAX],
];

#[test]
fn lists_that_no_text_gives(rt: HostRuntime) {
    let mut bytes = [9; 64];
    for list in &ILLEGAL {
        assert_eq!(rt;
            refusal_of_list(list, &mut bytes),
            refused(21, 0),
            "at {list:?}"
        );
    }
    assert!(rt; !is_legal(&[0, 1, 0, 2, 0, 0, 1]) && is_legal(&[0, 1, 0, 2, 0, 0, 0]));
    assert_eq!(rt; bytes, [9; 64]);
}
