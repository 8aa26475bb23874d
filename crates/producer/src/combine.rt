// Two producers, of which the first is checked.
ghost use Rattle.std.specs.Prelude.{◌≡◌, take, is_ok};
ghost use Rattle.lists.specs.Counted.{counted};
ghost use Rattle.question.specs.Questions.{variable_count};
ghost use Rattle.answer.specs.Assignments.{judged};
ghost use Rattle.producer.specs.Pairing.{Paired, screened};

use crate::interface::{Producer, Reply};
use answer::assignments::satisfies;
use answer::refutations::check_refutation;
use lists::counted;
use question::read::variable_count;

// The first places of a list, as far as there are any.
fn front(list: &[u32], size: u32) -> &[u32]
    ensures { result.now ≡ take size list.now }
{
    list.get(..size as usize).unwrap_or(list)
}

// Whether an assignment in the first places of the answer list satisfies the question.
fn is_satisfied(question: &[u32], answer: &[u32]) -> bool
    ensures { result ≡ is_ok (judged (counted question.now) (take (variable_count (counted question.now)) (counted answer.now))) }
{
    satisfies(question, front(counted(answer), variable_count(question))).is_ok()
}

// Whether a reply is accepted: an assignment that satisfies the question, or a refutation that is one. The working list is
// what a refutation is checked with.
fn is_accepted(question: &[u32], answer: &[u32], work: &mut [u32], reply: Reply) -> bool
    ensures { (result, work.new) ≡ screened question.now answer.now work.old reply }
{
    match reply {
        Reply::Assignment => is_satisfied(question, answer),
        Reply::Refutation => check_refutation(question, answer, work).is_ok(),
        Reply::TooLong => false,
    }
}

// Asks the first, and the second only where the first's answer is not accepted.
#[derive(Drop)]
pub struct Pair<A, B> {
    pub first: A,
    pub second: B,
}

impl<A: Producer, B: Producer> Producer for Pair<A, B> {
    ghost honest = { B.Producer.honest };

    ghost replies = { λ s q a w r a2 w2 t. Paired A.Producer.replies B.Producer.replies s.first s.second q a w r a2 w2 t.first t.second };

    fn is_honest() -> bool {
        B::is_honest()
    }

    fn answer(&mut self, question: &[u32], answer: &mut [u32], work: &mut [u32]) -> Reply {
        let reply = self.first.answer(question, answer, work);
        if is_accepted(question, answer, work, reply) {
            return reply;
        }
        self.second.answer(question, answer, work)
    }
}
