// Producers: splitting, recordings and pairs, and two that are written here.
ghost use Rattle.std.specs.Prelude.{◌≡◌, ◌+◌, min, false};

use crate::common::{has_only, is_untouched};
use answer::assignments::satisfies;
use answer::refutations::check_refutation;
use producer::combine::Pair;
use producer::interface::{Producer, Reply};
use producer::replay::Recorded;
use producer::split::Splitting;
use question::build::{inclusion_question, path_question, start_question};
use question::read::variable_count;
use sheet::literal::Literal;

// Answers 0 for every variable, if that satisfies the question. It gives no word, and its relation allows everything.
#[derive(Clone, Copy)]
struct Zeros;

impl Producer for Zeros {
    ghost honest = { false };

    ghost replies = { λ _ _ _ _ _ _ _ _. Unit {0} };

    fn is_honest() -> bool {
        false
    }

    fn answer(&mut self, question: &[u32], answer: &mut [u32], _work: &mut [u32]) -> Reply {
        let size = answer.len().min(variable_count(question) as usize);
        answer.fill(0);
        if satisfies(question, &answer[0..size]).is_ok() {
            Reply::Assignment
        } else {
            Reply::TooLong
        }
    }
}

// Another producer, with its mark, and how often it was asked.
#[derive(Drop)]
struct Counting<P> {
    inner: P,
    calls: u32,
}

impl<P: Producer> Producer for Counting<P> {
    ghost honest = { P.Producer.honest };

    ghost replies = { λ s q a w r a2 w2 t. P.Producer.replies s.inner q a w r a2 w2 t.inner × (t.calls ≡ min (s.calls + 1) 4294967295) };

    fn is_honest() -> bool {
        P::is_honest()
    }

    fn answer(&mut self, question: &[u32], answer: &mut [u32], work: &mut [u32]) -> Reply {
        self.calls = self.calls.saturating_add(1);
        self.inner.answer(question, answer, work)
    }
}

// A question that is answered by splitting: with how many answer and working places, the reply, and the answer list.
#[derive(Clone, Copy)]
struct Row {
    question: &'static [u32],
    room: usize,
    space: usize,
    reply: Reply,
    answer: &'static [u32],
}

// Every clause of three variables, in the order of the leaves that they end; the last leaf is open without the last clause.
const ALL_LEAVES: [u32; 36] = [
    3, 8, 0, 12, 15, 18, 21, 24, 27, 30, 33, 36, 0, 2, 4, 0, 2, 5, 0, 3, 4, 0, 3, 5, 1, 2, 4, 1, 2,
    5, 1, 3, 4, 1, 3, 5,
];

const LAST_LEAF: [u32; 32] = [
    3, 7, 0, 11, 14, 17, 20, 23, 26, 29, 32, 0, 2, 4, 0, 2, 5, 0, 3, 4, 0, 3, 5, 1, 2, 4, 1, 2, 5,
    1, 3, 4,
];

// Variable 0 or 1, 0 or not 1, not 0 or 1, not 0 or not 1.
const SQUARE: [u32; 16] = [2, 4, 0, 8, 10, 12, 14, 16, 0, 2, 0, 3, 1, 2, 1, 3];

const ROWS: [Row; 20] = [
    // No variable, and no clause.
    Row {
        question: &[0, 0, 0, 4],
        room: 0,
        space: 16,
        reply: Reply::Assignment,
        answer: &[],
    },
    // One variable.
    Row {
        question: &[1, 1, 0, 5, 6, 1],
        room: 2,
        space: 25,
        reply: Reply::Assignment,
        answer: &[0],
    },
    Row {
        question: &[1, 1, 0, 5, 6, 0],
        room: 2,
        space: 25,
        reply: Reply::Assignment,
        answer: &[1],
    },
    Row {
        question: &[1, 2, 0, 6, 7, 8, 0, 1],
        room: 4,
        space: 25,
        reply: Reply::Refutation,
        answer: &[1, 0, 1, 0],
    },
    Row {
        question: &[1, 2, 0, 6, 7, 8, 0, 1],
        room: 3,
        space: 25,
        reply: Reply::TooLong,
        answer: &[],
    },
    // The first leaf and the last; before the last, four steps were made.
    Row {
        question: &[3, 2, 0, 6, 8, 9, 1, 3, 5],
        room: 3,
        space: 49,
        reply: Reply::Assignment,
        answer: &[0, 0, 0],
    },
    Row {
        question: &LAST_LEAF,
        room: 20,
        space: 49,
        reply: Reply::Assignment,
        answer: &[1, 1, 1],
    },
    Row {
        question: &LAST_LEAF,
        room: 13,
        space: 49,
        reply: Reply::Assignment,
        answer: &[1, 1, 1],
    },
    Row {
        question: &LAST_LEAF,
        room: 12,
        space: 49,
        reply: Reply::TooLong,
        answer: &[],
    },
    // The 0 branch's clause lacks the variable, and the 1 branch's.
    Row {
        question: &[2, 2, 0, 6, 7, 8, 2, 3],
        room: 9,
        space: 40,
        reply: Reply::Refutation,
        answer: &[1, 0, 1, 1],
    },
    Row {
        question: &[2, 3, 0, 7, 8, 9, 10, 0, 2, 3],
        room: 9,
        space: 40,
        reply: Reply::Refutation,
        answer: &[1, 1, 2, 1],
    },
    // Two clauses are false at once: the lower one counts.
    Row {
        question: &[2, 4, 0, 8, 9, 11, 12, 14, 2, 0, 2, 3, 1, 3],
        room: 9,
        space: 40,
        reply: Reply::Refutation,
        answer: &[1, 0, 2, 1],
    },
    // Room for the last step, and one place less.
    Row {
        question: &SQUARE,
        room: 10,
        space: 36,
        reply: Reply::Refutation,
        answer: &[3, 0, 1, 1, 2, 3, 1, 4, 5, 0],
    },
    Row {
        question: &SQUARE,
        room: 9,
        space: 36,
        reply: Reply::TooLong,
        answer: &[],
    },
    Row {
        question: &ALL_LEAVES,
        room: 22,
        space: 49,
        reply: Reply::Refutation,
        answer: &[
            7, 0, 1, 2, 2, 3, 2, 8, 9, 1, 4, 5, 2, 6, 7, 2, 11, 12, 1, 10, 13, 0,
        ],
    },
    Row {
        question: &ALL_LEAVES,
        room: 21,
        space: 49,
        reply: Reply::TooLong,
        answer: &[],
    },
    // As many answer places as variables, and one less; the smallest working list, and one place less.
    Row {
        question: &[3, 2, 0, 6, 8, 9, 1, 3, 5],
        room: 2,
        space: 49,
        reply: Reply::TooLong,
        answer: &[],
    },
    Row {
        question: &[3, 2, 0, 6, 8, 9, 1, 3, 5],
        room: 3,
        space: 48,
        reply: Reply::TooLong,
        answer: &[],
    },
    // No questions: nothing at all, and more clauses than places.
    Row {
        question: &[],
        room: 1,
        space: 16,
        reply: Reply::Assignment,
        answer: &[],
    },
    Row {
        question: &[0, 5, 0, 4],
        room: 1,
        space: 16,
        reply: Reply::TooLong,
        answer: &[],
    },
];

// Has splitting answer a row in these lists, and says whether reply and both lists are right.
fn splits_in(row: &Row, answer: &mut [u32], work: &mut [u32]) -> bool {
    let reply = Splitting.answer(row.question, answer, work);
    reply == row.reply && has_only(answer, row.answer) && has_only(work, &[])
}

fn splits_so(row: &Row) -> bool {
    let mut answer = [9; 30];
    let mut work = [9; 60];
    let room = row.room.min(30);
    let space = row.space.min(60);
    splits_in(row, &mut answer[0..room], &mut work[0..space])
}

#[test]
fn splitting(rt: HostRuntime) {
    for (i, row) in ROWS.iter().enumerate() {
        assert!(rt; splits_so(row), "row {i}");
    }
    assert!(rt; Splitting::is_honest());
}

#[derive(Clone, Copy)]
enum Kind {
    Start,
    Path,
    Inclusion,
}

// A question of a sheet with its start formula (its gates and its literal) as R; P for an inclusion question.
#[derive(Clone, Copy)]
struct Asked {
    sheet: &'static [u32],
    gates: &'static [u32],
    r: u32,
    p: u32,
    kind: Kind,
    reply: Reply,
    answer: &'static [u32],
}

const IDLE: [u32; 6] = [0, 1, 0, 2, 0, 0];

const PRESS: [u32; 12] = [1, 2, 2, 10, 8, 0, 5, 0, 7, 2, 6, 4];

const LOCK: [u32; 14] = [1, 2, 3, 12, 8, 0, 10, 0, 7, 2, 5, 3, 6, 4];

const CLAMP: [u32; 12] = [1, 2, 2, 10, 8, 2, 1, 0, 7, 4, 4, 2];

const ASKED: [Asked; 12] = [
    // sheets/idle-latch.sheet; the last has P = 1, every state.
    Asked {
        sheet: &IDLE,
        gates: &[],
        r: 3,
        p: 0,
        kind: Kind::Start,
        reply: Reply::Refutation,
        answer: &[1, 2, 1, 1],
    },
    Asked {
        sheet: &IDLE,
        gates: &[],
        r: 3,
        p: 0,
        kind: Kind::Path,
        reply: Reply::Refutation,
        answer: &[2, 5, 1, 3, 6, 0, 0],
    },
    Asked {
        sheet: &IDLE,
        gates: &[],
        r: 3,
        p: 3,
        kind: Kind::Inclusion,
        reply: Reply::Refutation,
        answer: &[1, 2, 1, 1],
    },
    Asked {
        sheet: &IDLE,
        gates: &[],
        r: 3,
        p: 1,
        kind: Kind::Inclusion,
        reply: Reply::Assignment,
        answer: &[0, 1],
    },
    // sheets/one-press.sheet: one step leads to a bad state.
    Asked {
        sheet: &PRESS,
        gates: &[7, 5],
        r: 12,
        p: 0,
        kind: Kind::Start,
        reply: Reply::Refutation,
        answer: &[5, 11, 4, 5, 11, 5, 5, 11, 4, 5, 10, 7, 6, 14, 15, 3],
    },
    Asked {
        sheet: &PRESS,
        gates: &[7, 5],
        r: 12,
        p: 0,
        kind: Kind::Path,
        reply: Reply::Assignment,
        answer: &[0, 1, 0, 0, 1, 0, 0, 0, 1, 1, 0, 1, 1],
    },
    Asked {
        sheet: &PRESS,
        gates: &[7, 5],
        r: 12,
        p: 12,
        kind: Kind::Inclusion,
        reply: Reply::Refutation,
        answer: &[5, 9, 11, 6, 10, 7, 6, 12, 13, 3, 10, 8, 6, 14, 15, 2],
    },
    // sheets/needle-lock.sheet: safe.
    Asked {
        sheet: &LOCK,
        gates: &[7, 5],
        r: 14,
        p: 0,
        kind: Kind::Start,
        reply: Reply::Refutation,
        answer: &[5, 14, 7, 6, 14, 8, 6, 14, 7, 6, 13, 10, 7, 17, 18, 3],
    },
    Asked {
        sheet: &LOCK,
        gates: &[7, 5],
        r: 14,
        p: 0,
        kind: Kind::Path,
        reply: Reply::Refutation,
        answer: &[
            7, 28, 26, 13, 29, 10, 9, 30, 2, 4, 28, 25, 13, 32, 12, 10, 33, 5, 5, 31, 34, 1,
        ],
    },
    Asked {
        sheet: &LOCK,
        gates: &[7, 5],
        r: 14,
        p: 1,
        kind: Kind::Inclusion,
        reply: Reply::Assignment,
        answer: &[0, 0, 0, 1, 0, 1, 0, 0],
    },
    // sheets/clamp-power-up.sheet: a start state is bad.
    Asked {
        sheet: &CLAMP,
        gates: &[],
        r: 7,
        p: 0,
        kind: Kind::Start,
        reply: Reply::Assignment,
        answer: &[0, 1, 1, 0, 1, 1],
    },
    Asked {
        sheet: &CLAMP,
        gates: &[],
        r: 7,
        p: 0,
        kind: Kind::Path,
        reply: Reply::Assignment,
        answer: &[0, 0, 1, 0, 1, 0, 0, 1, 1, 1, 0, 1],
    },
];

fn pose(row: &Asked, list: &mut [u32]) -> Option<usize> {
    let r = Literal::from_number(row.r);
    let p = Literal::from_number(row.p);
    let count = u32::from(!row.gates.is_empty());
    match row.kind {
        Kind::Start => start_question(row.sheet, row.gates, count, r, list),
        Kind::Path => path_question(row.sheet, row.gates, count, r, 0, list),
        Kind::Inclusion => inclusion_question(row.sheet, row.gates, count, p, r, list),
    }
}

// Whether the judges accept a reply.
fn is_right(question: &[u32], answer: &[u32], reply: Reply) -> bool {
    match reply {
        Reply::Assignment => {
            let size = answer.len().min(variable_count(question) as usize);
            satisfies(question, &answer[0..size]).is_ok()
        }
        Reply::Refutation => check_refutation(question, answer, &mut [0; 40]).is_ok(),
        Reply::TooLong => false,
    }
}

fn answers_so(row: &Asked) -> bool {
    let mut list = [0; 94];
    let len = pose(row, &mut list).unwrap_or(0).min(94);
    let question = &list[0..len];
    let mut answer = [9; 30];
    let mut work = [9; 361];
    let reply = Splitting.answer(question, &mut answer, &mut work);
    reply == row.reply
        && has_only(&answer, row.answer)
        && has_only(&work, &[])
        && is_right(question, &answer, reply)
}

#[test]
fn splitting_on_sheets(rt: HostRuntime) {
    for (i, row) in ASKED.iter().enumerate() {
        assert!(rt; answers_so(row), "row {i}");
    }
}

// Two variables, of which one must be 1.
const EITHER: [u32; 7] = [2, 1, 0, 5, 7, 0, 2];

// Eight records and their bodies, and three of which the last is not there.
const TAPE: [u32; 31] = [
    8, 2, 25, 2, 0, 31, 2, 0, 30, 2, 0, 25, 1, 0, 25, 3, 0, 25, 2, 1, 25, 6, 1, 27, 4, 1, 0, 1, 0,
    1, 0,
];

const CUT_TAPE: [u32; 7] = [3, 1, 4294967295, 4294967295, 0, 4, 2];

// What a recording replies next, how many records are used up then, and the answer list of five places, unless it is too long.
type Call = (Reply, u32, &'static [u32]);

const CALLS: [Call; 10] = [
    // Wrong kind; place, then end, outside the recording; an assignment too short, then too long.
    (Reply::TooLong, 1, &[]),
    (Reply::TooLong, 2, &[]),
    (Reply::TooLong, 3, &[]),
    (Reply::TooLong, 4, &[]),
    (Reply::TooLong, 5, &[]),
    (Reply::Assignment, 6, &[1, 0]),
    // A body that is longer than the answer list.
    (Reply::TooLong, 7, &[]),
    (Reply::Refutation, 8, &[1, 0, 1, 0]),
    // Used up.
    (Reply::TooLong, 8, &[]),
    (Reply::TooLong, 8, &[]),
];

const CUT_CALLS: [Call; 4] = [
    (Reply::TooLong, 1, &[]),
    (Reply::Assignment, 2, &[0, 4]),
    (Reply::TooLong, 3, &[]),
    (Reply::TooLong, 3, &[]),
];

fn replays_so(recorded: &mut Recorded<'_>, call: &Call) -> bool {
    let (due, position, numbers) = *call;
    let mut answer = [9; 5];
    let mut work = [9; 3];
    let reply = recorded.answer(&EITHER, &mut answer, &mut work);
    let written = match due {
        Reply::TooLong => is_untouched(&answer),
        Reply::Assignment | Reply::Refutation => has_only(&answer, numbers),
    };
    reply == due && written && is_untouched(&work) && recorded.position() == position
}

#[test]
fn recordings(rt: HostRuntime) {
    let mut recorded = Recorded::new(&TAPE);
    for (i, call) in CALLS.iter().enumerate() {
        assert!(rt; replays_so(&mut recorded, call), "call {i}");
    }
    let mut recorded = Recorded::new(&CUT_TAPE);
    for (i, call) in CUT_CALLS.iter().enumerate() {
        assert!(rt; replays_so(&mut recorded, call), "call {i}, cut");
    }
}

// One variable that must be both.
const SHUT: [u32; 8] = [1, 2, 0, 6, 7, 8, 0, 1];

// A recording before another producer: the reply, and both lists; no working list where it was not touched.
#[derive(Clone, Copy)]
struct Screened {
    question: &'static [u32],
    tape: &'static [u32],
    reply: Reply,
    answer: &'static [u32],
    work: Option<&'static [u32]>,
}

const BEFORE_SPLITTING: [Screened; 7] = [
    // Sound records: an assignment, which leaves the working list alone, and a refutation, which was judged in it.
    Screened {
        question: &EITHER,
        tape: &[1, 0, 4, 2, 1, 0],
        reply: Reply::Assignment,
        answer: &[1, 0],
        work: None,
    },
    Screened {
        question: &SHUT,
        tape: &[1, 1, 4, 4, 1, 0, 1, 0],
        reply: Reply::Refutation,
        answer: &[1, 0, 1, 0],
        work: Some(&[2, 2]),
    },
    // Damaged: a clause is false, a number is no bit, there is no refutation, first and second are swapped; and used up.
    Screened {
        question: &EITHER,
        tape: &[1, 0, 4, 2, 0, 0],
        reply: Reply::Assignment,
        answer: &[0, 1],
        work: Some(&[]),
    },
    Screened {
        question: &EITHER,
        tape: &[1, 0, 4, 2, 1, 2],
        reply: Reply::Assignment,
        answer: &[0, 1],
        work: Some(&[]),
    },
    Screened {
        question: &EITHER,
        tape: &[1, 1, 4, 4, 1, 0, 0, 0],
        reply: Reply::Assignment,
        answer: &[0, 1],
        work: Some(&[]),
    },
    Screened {
        question: &SHUT,
        tape: &[1, 1, 4, 4, 1, 1, 0, 0],
        reply: Reply::Refutation,
        answer: &[1, 0, 1, 0],
        work: Some(&[]),
    },
    Screened {
        question: &EITHER,
        tape: &[0],
        reply: Reply::Assignment,
        answer: &[0, 1],
        work: Some(&[]),
    },
];

// A recording of the assignment 0, 1.
const SECOND: [u32; 6] = [1, 0, 4, 2, 0, 1];

// The second is asked only where the first is not accepted, and is not judged itself.
const BEFORE_RECORDED: [Screened; 4] = [
    Screened {
        question: &EITHER,
        tape: &[1, 0, 4, 2, 1, 0],
        reply: Reply::Assignment,
        answer: &[1, 0],
        work: None,
    },
    Screened {
        question: &EITHER,
        tape: &[1, 0, 4, 2, 0, 0],
        reply: Reply::Assignment,
        answer: &[0, 1],
        work: None,
    },
    Screened {
        question: &SHUT,
        tape: &[1, 1, 4, 4, 1, 1, 0, 0],
        reply: Reply::TooLong,
        answer: &[1, 1],
        work: Some(&[]),
    },
    Screened {
        question: &EITHER,
        tape: &[0],
        reply: Reply::Assignment,
        answer: &[0, 1],
        work: None,
    },
];

// Whether a pair that begins with a row's recording gives the reply and both lists of the row.
fn screens_so<P: Producer>(row: &Screened, pair: &mut Pair<Recorded<'_>, P>) -> bool {
    let mut answer = [9; 6];
    let mut work = [9; 36];
    let reply = pair.answer(row.question, &mut answer, &mut work);
    let worked = row
        .work
        .map_or(is_untouched(&work), |numbers| has_only(&work, numbers));
    reply == row.reply && has_only(&answer, row.answer) && worked
}

#[test]
fn pairs(rt: HostRuntime) {
    for (i, row) in BEFORE_SPLITTING.iter().enumerate() {
        let mut pair = Pair {
            first: Recorded::new(row.tape),
            second: Splitting,
        };
        assert!(rt; screens_so(row, &mut pair), "row {i}");
    }
    for (i, row) in BEFORE_RECORDED.iter().enumerate() {
        let mut pair = Pair {
            first: Recorded::new(row.tape),
            second: Recorded::new(&SECOND),
        };
        assert!(rt; screens_so(row, &mut pair), "row {i}, recorded");
        // The second was asked only where the first's answer is another.
        let asked = pair.second.position() == 1;
        assert_eq!(rt; asked, row.answer != [1, 0].as_slice(), "row {i}, recorded");
    }
    assert!(rt; Pair::<Zeros, Splitting>::is_honest() && !Pair::<Splitting, Zeros>::is_honest());
}

// Zeros first, then splitting, which is lent and counts how often it is asked.
#[test]
fn producers_of_this_crate(rt: HostRuntime) {
    let mut counting = Counting {
        inner: Splitting,
        calls: 0,
    };
    let mut pair = Pair {
        first: Zeros,
        second: &mut counting,
    };
    let mut answer = [9; 3];
    let mut work = [9; 36];
    let reply = pair.answer(&[1, 1, 0, 5, 6, 1], &mut answer, &mut work);
    assert!(rt; reply == Reply::Assignment && answer == [0; 3] && work == [9; 36]);
    let reply = pair.answer(&EITHER, &mut answer, &mut work);
    assert!(rt; reply == Reply::Assignment && answer == [0, 1, 0] && work == [0; 36]);
    let reply = pair.answer(&SHUT, &mut answer, &mut work);
    assert!(rt; reply == Reply::TooLong && answer == [0; 3]);
    assert_eq!(rt; counting.calls, 2);
    assert!(rt; Counting::<Splitting>::is_honest() && !Counting::<Zeros>::is_honest());
}
