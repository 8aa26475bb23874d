// Answers that were written down.
ghost use Rattle.std.specs.Prelude.{◌≡◌, ◌+◌, false, is_some, IfSome};
ghost use Rattle.lists.specs.Counted.{counted};
ghost use Rattle.producer.specs.Recording.{header_at, is_sound, reply_of, body_of, recited, replay};

use crate::interface::{Producer, Reply};
use lists::{counted, counted_len};
use question::read::{number_at, variable_count};

// The reply of record `i` and its body, if both lie in the recording and the body is right for the question and the room. A
// record is three numbers: 0 for an assignment or 1 for a refutation, where the body lies, and how long it is.
fn read_record(tape: &[u32], i: u32, variables: u32, room: usize) -> Option<(Reply, &[u32])>
    ensures if_sound { is_some result ≡ is_sound tape.now i variables room }
    ensures reads { IfSome result (λ r. (r.0 ≡ reply_of (header_at tape.now i)) × (r.1.now ≡ body_of tape.now (header_at tape.now i))) }
{
    let numbers = tape.get(3 * i as usize + 1..)?;
    let [kind, place, size] = *numbers.first_chunk::<3>()?;
    let start = place as usize;
    let body = tape.get(start..start + size as usize)?;
    if body.len() > room {
        return None;
    }
    match kind {
        0 if size == variables => Some((Reply::Assignment, body)),
        1 => Some((Reply::Refutation, body)),
        _ => None,
    }
}

// The answer of a record where every place counts: its body, and zeros behind it.
fn recite(tape: &[u32], i: u32, variables: u32, answer: &mut [u32]) -> Reply
    ensures { (result, answer.new) ≡ recited tape.now i variables answer.old }
{
    let Some((reply, body)) = read_record(tape, i, variables, answer.len()) else {
        return Reply::TooLong;
    };
    answer.fill(0);
    answer[..body.len()].copy_from_slice(body);
    reply
}

// A recording, and how many of its records are used up. It has how many records there are, three numbers for each of them,
// and their bodies.
#[derive(Drop)]
pub struct Recorded<'a> {
    tape: &'a [u32],
    position: u32,
}

impl<'a> Recorded<'a> {
    pub fn new(tape: &'a [u32]) -> Recorded<'a>
        ensures holds_the_recording { result.tape.now ≡ tape.now }
        ensures starts_at_the_first { result.position ≡ 0 }
    {
        Recorded { tape, position: 0 }
    }

    // How many records are used up.
    pub fn position(&self) -> u32
        ensures is_the_position { result ≡ self.now.position }
    {
        self.position
    }
}

impl<'a> Producer for Recorded<'a> {
    ghost honest = { false };

    ghost replies = { λ s q a w r a2 w2 t. (r, a2, w2, t.tape.now, t.position) ≡ replay s.tape.now s.position q a w };

    fn is_honest() -> bool
        ensures is_the_mark { result ≡ false }
    {
        false
    }

    fn answer(&mut self, question: &[u32], answer: &mut [u32], _work: &mut [u32]) -> Reply {
        let tape = counted(self.tape);
        let i = self.position;
        if i >= number_at(tape, 0) {
            return Reply::TooLong;
        }
        self.position = i + 1;
        let room = counted_len(answer.len());
        recite(tape, i, variable_count(question), &mut answer[..room])
    }
}
