// Reads the text of a sheet into the list that lays it out. Each line is cut into the parts that should be numbers, and
// those are then read; the numbers are gathered apart from the lent list, so that a refusal writes nothing to it.
ghost use Rattle.std.specs.Prelude.{◌≡◌, ◌+◌, ◌-◌, ◌*◌, ◌^◌, ◌<◌, ◌≤◌, [], ◌∷◌, ◌++◌, length, replicate, position, ◌==◌, IfOk, OnOk};
ghost use Rattle.arrayvec.specs.ArrayVec.{array_vec_len};
ghost use Rattle.lists.specs.Counted.{counted};
ghost use Rattle.sheet.specs.Faults.{map_ok};
ghost use Rattle.sheet.specs.Parts.{up_to, spelled, spaced, former, further, latter, shape, seen};
ghost use Rattle.sheet.specs.Parse.{refusal, line_if, triples_if, parts_if, part_if, number_of, read_contents, letter, read_pair, read_pairs, read_bad, parse, read_text};
ghost use Rattle.sheet.specs.FirstLine.{Judged};
ghost use Rattle.sheet.specs.Reasons.{Reasoned};
ghost use Rattle.sheet.specs.Sheets.{Legal};
ghost use Rattle.sheet.specs.Trip.{AcceptsLegalSheets, WritesBack};
ghost use Rattle.sheet.specs.Seen.{triples_seen, parts_seen, part_seen, contents_seen, pair_seen, rest_seen, bad_seen, whole_seen};

use crate::fault::{Cause, Fault, Layer};
use crate::line::{Due, Line, in_order, in_range};
use arrayvec::ArrayVec;
use lists::counted_len;

// How many inputs, latches and gates there are.
#[derive(Clone, Copy)]
struct Counts {
    inputs: u32,
    latches: u32,
    gates: u32,
}

// The pairs of numbers of latches and gates: a legal sheet has at most 224.
type Pairs = ArrayVec<u32, 448>;

// The numbers of a sheet before its pairs.
#[derive(Clone, Copy)]
struct Head {
    counts: Counts,
    bad: u32,
}

// Which line of two numbers is due, at which place of the text, the largest literal, and the node that the line is of.
#[derive(Clone, Copy)]
struct Rule {
    due: Due,
    place: u32,
    most: u32,
    own: u32,
}

// The numbers of a line of two, and what follows the line.
#[derive(Clone, Copy)]
struct Pair<'a> {
    first: u32,
    second: u32,
    rest: &'a [u8],
}

// A refusal of a sheet.
pub(crate) fn refuse(cause: Cause, place: u32) -> Fault
    ensures { result ≡ refusal cause place }
{
    Fault {
        layer: Layer::Sheet,
        cause,
        place,
    }
}

fn digit(byte: u8) -> u32
    requires { 48 ≤ byte }
    ensures { result ≡ byte - 48 }
{
    u32::from(byte - b'0')
}

// The number that `part` spells.
fn number(part: &[u8]) -> Option<u32>
    ensures { result ≡ spelled part.now }
{
    match part {
        [a @ b'0'..=b'9'] => Some(digit(*a)),
        [a @ b'1'..=b'9', b @ b'0'..=b'9'] => Some(digit(*a) * 10 + digit(*b)),
        [a @ b'1'..=b'9', b @ b'0'..=b'9', c @ b'0'..=b'9'] => {
            Some(digit(*a) * 100 + digit(*b) * 10 + digit(*c))
        }
        _ => None,
    }
}

// The number that `part` spells, or the refusal of its line.
fn number_in(part: &[u8], place: u32) -> Result<u32, Fault>
    ensures { result ≡ number_of place part.now }
{
    number(part).ok_or(refuse(Cause::NotNumbers, place))
}

fn first_place(s: &[u8], byte: u8) -> Option<usize>
    ensures { result ≡ position (λ x. x == byte) s.now }
{
    s.iter().position(|x| *x == byte)
}

// Where `byte` first stands in `s`, or the length of `s`.
fn up_to(s: &[u8], byte: u8) -> usize
    ensures first { result ≡ up_to byte s.now }
    ensures within { result ≤ length s.now }
{
    first_place(s, byte).unwrap_or(s.len())
}

// What follows one space at the front of `s`; nothing where there is none.
fn after_space(s: &[u8]) -> &[u8]
    ensures { result.now ≡ spaced s.now }
{
    match s {
        [b' ', rest @ ..] => rest,
        _ => &[],
    }
}

// The part after a space, up to the next space, and what is left from there on.
fn part(s: &[u8]) -> (&[u8], &[u8])
    ensures cut_off { result.0.now ≡ former s.now }
    ensures left { result.1.now ≡ further s.now }
{
    let s = after_space(s);
    s.split_at(up_to(s, b' '))
}

// Two parts, each after a space; the second takes all that is left.
fn two(s: &[u8]) -> (&[u8], &[u8])
    ensures first { result.0.now ≡ former s.now }
    ensures second { result.1.now ≡ latter s.now }
{
    let (a, rest) = part(s);
    (a, after_space(rest))
}

// A line without its end, by its letter.
fn cut(line: &[u8]) -> Option<Line<'_>>
    ensures { seen result ≡ shape line.now }
{
    let [letter, rest @ ..] = line else {
        return None;
    };
    match char::from(*letter) {
        'c' => {
            let (inputs, rest) = part(rest);
            let (latches, gates) = two(rest);
            Some(Line::Contents(inputs, latches, gates))
        }
        'l' => {
            let (next, start) = two(rest);
            Some(Line::Latch(next, start))
        }
        'g' => {
            let (left, right) = two(rest);
            Some(Line::Gate(left, right))
        }
        'b' => Some(Line::Bad(after_space(rest))),
        _ => None,
    }
}

// The first line of `text`, without its end, and what follows it, if it has an end.
fn first_line(text: &[u8]) -> Option<(&[u8], &[u8])>
    ensures { parts_seen result ≡ line_if text.now }
{
    let end = up_to(text, b'\n');
    if end == text.len() {
        return None;
    }
    Some((&text[0..end], &text[end + 1..]))
}

// The three parts of a contents line.
fn contents_due(line: &[u8]) -> Option<(&[u8], &[u8], &[u8])>
    ensures { triples_seen result ≡ triples_if 99 line.now }
{
    match cut(line) {
        Some(Line::Contents(inputs, latches, gates)) => Some((inputs, latches, gates)),
        _ => None,
    }
}

// The two parts of a line, if it is the one that is due.
fn parts_due(line: &[u8], due: Due) -> Option<(&[u8], &[u8])>
    ensures { parts_seen result ≡ parts_if (letter due) line.now }
{
    match (due, cut(line)) {
        (Due::OfLatch, Some(Line::Latch(next, start))) => Some((next, start)),
        (Due::OfGate, Some(Line::Gate(left, right))) => Some((left, right)),
        _ => None,
    }
}

// The part of the line of the bad literal.
fn bad_due(line: &[u8]) -> Option<&[u8]>
    ensures { part_seen result ≡ part_if 98 line.now }
{
    match cut(line) {
        Some(Line::Bad(a)) => Some(a),
        _ => None,
    }
}

// The contents line, and what follows it.
fn read_contents(text: &[u8]) -> Result<(Counts, &[u8]), Fault>
    ensures read_off { map_ok contents_seen result ≡ read_contents text.now }
    ensures within { IfOk result (λ c. (c.0.inputs ≤ 24) × (c.0.latches ≤ 24) × (c.0.gates ≤ 200)) }
{
    let Some((line, rest)) = first_line(text) else {
        return Err(refuse(Cause::LineNotEnded, 1));
    };
    let Some((inputs, latches, gates)) = contents_due(line) else {
        return Err(refuse(Cause::WrongLetter, 1));
    };
    let inputs = number_in(inputs, 1)?;
    let latches = number_in(latches, 1)?;
    let gates = number_in(gates, 1)?;
    if inputs > 24 || latches < 1 || latches > 24 || gates > 200 {
        return Err(refuse(Cause::OutOfRange, 1));
    }
    let counts = Counts {
        inputs,
        latches,
        gates,
    };
    Ok((counts, rest))
}

// A line of two numbers, as `rule` says, and what follows it.
fn read_pair(text: &[u8], rule: Rule) -> Result<Pair<'_>, Fault>
    ensures { map_ok pair_seen result ≡ read_pair rule.due rule.most rule.own rule.place text.now }
{
    let Some((line, rest)) = first_line(text) else {
        return Err(refuse(Cause::LineNotEnded, rule.place));
    };
    let Some((first, second)) = parts_due(line, rule.due) else {
        return Err(refuse(Cause::WrongLetter, rule.place));
    };
    let first = number_in(first, rule.place)?;
    let second = number_in(second, rule.place)?;
    if !in_range(rule.due, rule.most, first, second) {
        return Err(refuse(Cause::OutOfRange, rule.place));
    }
    if !in_order(rule.due, rule.own, first, second) {
        return Err(refuse(Cause::OutOfOrder, rule.place));
    }
    Ok(Pair {
        first,
        second,
        rest,
    })
}

// The line of the bad literal, and what follows it.
fn read_bad(text: &[u8], place: u32, most: u32) -> Result<(u32, &[u8]), Fault>
    ensures { map_ok bad_seen result ≡ read_bad most place text.now }
{
    let Some((line, rest)) = first_line(text) else {
        return Err(refuse(Cause::LineNotEnded, place));
    };
    let Some(bad) = bad_due(line) else {
        return Err(refuse(Cause::WrongLetter, place));
    };
    let bad = number_in(bad, place)?;
    if bad > most {
        return Err(refuse(Cause::OutOfRange, place));
    }
    Ok((bad, rest))
}

// `count` lines of two numbers, the first as `rule` says; the numbers are added to `pairs`. The result is what follows the
// lines.
fn read_pairs<'a>(
    text: &'a [u8],
    rule: Rule,
    count: u32,
    pairs: &mut Pairs,
) -> Result<&'a [u8], Fault>
    requires room { array_vec_len pairs.old + 2 * count ≤ 448 }
    requires places { rule.place + count < 2 ^ 32 }
    requires nodes { rule.own + count < 2 ^ 32 }
    ensures read_off { map_ok (rest_seen pairs.new.items) result ≡ read_pairs count rule.due rule.most rule.own pairs.old.items rule.place text.now }
    ensures all { IfOk result (λ _. array_vec_len pairs.new ≡ array_vec_len pairs.old + 2 * count) }
{
    let mut rest = text;
    for i in 0..count {
        let here = Rule {
            place: rule.place + i,
            own: rule.own + i,
            ..rule
        };
        let pair = read_pair(rest, here)?;
        pairs.push(pair.first);
        pairs.push(pair.second);
        rest = pair.rest;
    }
    Ok(rest)
}

// The whole text. The pairs of its latches and gates are added to `pairs`, which the caller keeps: a result is moved, and a
// vector of this size would be moved with it.
fn read_all(text: &[u8], pairs: &mut Pairs) -> Result<Head, Fault>
    requires { pairs.old.items ≡ [] }
    ensures { map_ok (whole_seen pairs.new.items) result ≡ parse text.now }
{
    if text.len() > 4096 {
        return Err(refuse(Cause::TextTooLong, 0));
    }
    let (counts, rest) = read_contents(text)?;
    let most = 2 * (counts.inputs + counts.latches + counts.gates) + 1;
    let first_latch = Rule {
        due: Due::OfLatch,
        place: 2,
        most,
        own: 1 + counts.inputs,
    };
    let first_gate = Rule {
        due: Due::OfGate,
        place: 2 + counts.latches,
        most,
        own: 1 + counts.inputs + counts.latches,
    };
    let rest = read_pairs(rest, first_latch, counts.latches, pairs)?;
    let rest = read_pairs(rest, first_gate, counts.gates, pairs)?;
    let (bad, rest) = read_bad(rest, 2 + counts.latches + counts.gates, most)?;
    if !rest.is_empty() {
        return Err(refuse(Cause::TextGoesOn, 3 + counts.latches + counts.gates));
    }
    Ok(Head { counts, bad })
}

// Writes what was read, and zeros behind it.
fn store(list: &mut [u32], head: Head, pairs: &[u32])
    requires { length (whole_seen pairs.now head) ≤ length list.old }
    ensures { list.new ≡ whole_seen pairs.now head ++ replicate (length list.old - length (whole_seen pairs.now head)) 0 }
{
    list.fill(0);
    list[0] = head.counts.inputs;
    list[1] = head.counts.latches;
    list[2] = head.counts.gates;
    list[3] = head.bad;
    list[4..4 + pairs.len()].copy_from_slice(pairs);
}

// Reads a whole text into the places of `list` that count: how many inputs, latches and gates, the bad literal, a pair for
// each latch and each gate, and zeros behind. The result is how many places the sheet takes. A refusal leaves `list` as it
// was.
pub fn read(text: &[u8], list: &mut [u32]) -> Result<usize, Fault>
    ensures reads_exactly_the_format { (result, list.new) ≡ read_text text.now list.old }
    ensures names_the_first_wrong_line { Judged text.now result }
    ensures gives_the_reason { Reasoned text.now result }
    ensures accepts_legal_sheets { AcceptsLegalSheets }
    ensures leaves_a_legal_list { IfOk result (λ n. Legal (counted list.new) × (n ≤ length list.new)) }
    ensures is_written_back { OnOk result (WritesBack text.now list.new) }
{
    let mut pairs = Pairs::new();
    let head = read_all(text, &mut pairs)?;
    let count = 4 + pairs.len();
    let places = counted_len(list.len());
    if places < count {
        return Err(refuse(Cause::ListTooShort, 0));
    }
    store(&mut list[0..places], head, pairs.as_slice());
    Ok(count)
}
