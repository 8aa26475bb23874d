// Writing a sheet: the text of a list, and which lists have one.
ghost use Rattle.std.specs.Prelude.{◌≡◌, ℕ, ◌+◌, ◌*◌, ◌<◌, ◌≤◌, ◌&&◌, List, [], ◌∷◌, ◌++◌, length, take, drop, IfOk, Err, Decides};
ghost use Rattle.sheet.specs.declared.fault.Cause.TheVariants.{ListTooShort, NotLegal};
ghost use Rattle.arrayvec.specs.ArrayVec.{array_vec_len};
ghost use Rattle.lists.specs.Counted.{counted};
ghost use Rattle.sheet.specs.Sheets.{latch_count, gate_count, size_of, Legal};
ghost use Rattle.sheet.specs.Parse.{refusal, in_range, ordered};
ghost use Rattle.sheet.specs.Render.{digits, line_text, pairs_text, text_of, pairs_fit, all_zero, well_formed, placed, write_text};
ghost use Rattle.sheet.specs.Trip.{Iff, ReadsTo, ReadsBack};

use crate::fault::{Cause, Fault};
use crate::line::{Due, in_order, in_range};
use crate::read::refuse;
use arrayvec::ArrayVec;

// No text is longer: a contents line of at most 14 bytes, 224 lines of at most 10, and the bad line of at most 6, each
// number counted as three digits.
const MOST_BYTES: usize = 2260;

type Text = ArrayVec<u8, MOST_BYTES>;

// Whether a line of two numbers may have these; `own` is the node of a gate.
fn pair_fits(due: Due, most: u32, own: u32, first: u32, second: u32) -> bool
    ensures { result ≡ (in_range due most first second && ordered due own first second) }
{
    in_range(due, most, first, second) && in_order(due, own, first, second)
}

// Whether each of `count` pairs, which lie in `list` from `from` on, may stand there; `own` is the node of the first gate.
fn pairs_fit(list: &[u32], from: usize, count: u32, due: Due, most: u32, own: u32) -> bool
    requires there { from + 2 * count ≤ length list.now }
    requires nodes { own + count ≤ 249 }
    ensures { result ≡ pairs_fit count due most own (drop from list.now) }
{
    let (pairs, _) = list[from..from + 2 * count as usize].as_chunks::<2>();
    for (i, [first, second]) in pairs.iter().enumerate() {
        if !pair_fits(due, most, own + i as u32, *first, *second) {
            return false;
        }
    }
    true
}

fn all_zero(list: &[u32]) -> bool
    ensures { result ≡ all_zero list.now }
{
    list.iter().all(|x| *x == 0)
}

// Whether some text gives `list`.
fn is_well_formed(list: &[u32]) -> bool
    ensures { result ≡ well_formed list.now }
{
    if list.len() < 4 {
        return false;
    }
    let inputs = list[0];
    let latches = list[1];
    let gates = list[2];
    if inputs > 24 || latches < 1 || latches > 24 || gates > 200 {
        return false;
    }
    let most = 2 * (inputs + latches + gates) + 1;
    let gates_from = 4 + 2 * latches as usize;
    let end = 4 + 2 * (latches + gates) as usize;
    if list.len() < end || list[3] > most {
        return false;
    }
    if !pairs_fit(list, 4, latches, Due::OfLatch, most, 1 + inputs) {
        return false;
    }
    if !pairs_fit(
        list,
        gates_from,
        gates,
        Due::OfGate,
        most,
        1 + inputs + latches,
    ) {
        return false;
    }
    all_zero(&list[end..])
}

// Whether a list is one that reading writes.
pub fn is_legal(list: &[u32]) -> bool
    ensures decides_legal { Decides result (Legal (counted list.now)) }
    ensures is_the_test { result ≡ well_formed (counted list.now) }
{
    is_well_formed(lists::counted(list))
}

// Each of these functions adds to `out`.
fn put_number(out: &mut Text, n: u32)
    requires { array_vec_len out.old + 3 ≤ 2260 }
    ensures text { out.new.items ≡ out.old.items ++ digits n }
    ensures few { array_vec_len out.new ≤ array_vec_len out.old + 3 }
{
    if n >= 100 {
        out.push(b'0' + (n / 100 % 10) as u8);
    }
    if n >= 10 {
        out.push(b'0' + (n / 10 % 10) as u8);
    }
    out.push(b'0' + (n % 10) as u8);
}

// A line: its letter, each number after one space, and its end.
fn put_line(out: &mut Text, letter: u8, numbers: &[u32])
    requires { array_vec_len out.old + 4 * length numbers.now + 2 ≤ 2260 }
    ensures text { out.new.items ≡ out.old.items ++ line_text letter numbers.now }
    ensures few { array_vec_len out.new ≤ array_vec_len out.old + 4 * length numbers.now + 2 }
{
    out.push(letter);
    for n in numbers {
        out.push(b' ');
        put_number(out, *n);
    }
    out.push(b'\n');
}

// A line for each of `count` pairs, which lie in `list` from `from` on.
fn put_pairs(out: &mut Text, letter: u8, list: &[u32], from: usize, count: u32)
    requires room { array_vec_len out.old + 10 * count ≤ 2260 }
    requires there { from + 2 * count ≤ length list.now }
    ensures text { out.new.items ≡ out.old.items ++ pairs_text count letter (drop from list.now) }
    ensures few { array_vec_len out.new ≤ array_vec_len out.old + 10 * count }
{
    let (pairs, _) = list[from..from + 2 * count as usize].as_chunks::<2>();
    for pair in pairs {
        put_line(out, letter, pair);
    }
}

// The whole text of a list.
fn text_of(list: &[u32]) -> Text
    requires latches { latch_count list.now ≤ 24 }
    requires gates { gate_count list.now ≤ 200 }
    requires whole { size_of list.now ≤ length list.now }
    ensures { result.items ≡ text_of list.now }
{
    let latches = list[1];
    let gates = list[2];
    let mut out = Text::new();
    put_line(&mut out, b'c', &list[0..3]);
    put_pairs(&mut out, b'l', list, 4, latches);
    put_pairs(&mut out, b'g', list, 4 + 2 * latches as usize, gates);
    put_line(&mut out, b'b', &list[3..4]);
    out
}

// Writes `bytes` to the front of `text`, and zeros behind them, if there is room.
fn place(bytes: &[u8], text: &mut [u8]) -> Result<usize, Fault>
    ensures { (result, text.new) ≡ placed bytes.now text.old }
{
    let count = bytes.len();
    if text.len() < count {
        return Err(refuse(Cause::ListTooShort, 0));
    }
    text[0..count].copy_from_slice(bytes);
    text[count..].fill(0);
    Ok(count)
}

// Writes the text of `list` into `text`, with zeros behind it, and returns how many bytes it has. A refusal leaves `text` as
// it was.
pub fn write(list: &[u32], text: &mut [u8]) -> Result<usize, Fault>
    ensures writes_exactly_the_text { (result, text.new) ≡ write_text list.now text.old }
    ensures is_read_back { IfOk result (λ n. ReadsBack list.now (take n text.new)) }
    ensures refuses_what_no_text_reads_to { Iff (result ≡ Err (refusal NotLegal 0)) ((t : List ℕ) → ReadsTo t list.now → ⊥) }
    ensures wants_room { Iff (result ≡ Err (refusal ListTooShort 0)) (Legal (counted list.now) × (length (counted text.old) < length (text_of (counted list.now)))) }
{
    let list = lists::counted(list);
    if !is_well_formed(list) {
        return Err(refuse(Cause::NotLegal, 0));
    }
    let len = lists::counted_len(text.len());
    place(text_of(list).as_slice(), &mut text[0..len])
}
