// What answers questions.
ghost use Rattle.std.specs.Prelude.{◌≡◌, Bool};
ghost use Rattle.producer.specs.Replying.{Replies, KeepsWord};

// What a producer says of the answer that it wrote: the first places are an assignment, one for each variable; the whole list
// is a refutation; or it has written no answer.
#[derive(Clone, Copy, PartialEq, Eq)]
pub enum Reply {
    Assignment,
    Refutation,
    TooLong,
}

// Whatever can be asked.
pub trait Producer {
    // Whether its word is kept.
    ghost honest: { Bool };

    // What it may do when asked: itself, the question, the answer list and the working list before; the reply, both lists and
    // itself after.
    ghost replies: { Replies Self };

    // Whether it is marked as one that keeps its word.
    fn is_honest() -> bool
        ensures is_the_mark { result ≡ honest };

    fn answer(&mut self, question: &[u32], answer: &mut [u32], work: &mut [u32]) -> Reply
        ensures keeps_its_word { KeepsWord honest question.now answer.new work.new result }
        ensures replies_as_it_may { replies self.old question.now answer.old work.old result answer.new work.new self.new };
}

// One that is lent.
impl<P: Producer> Producer for &mut P {
    ghost honest = { P.Producer.honest };

    ghost replies = { λ s q a w r a2 w2 t. P.Producer.replies s.now q a w r a2 w2 t.now };

    fn is_honest() -> bool {
        P::is_honest()
    }

    fn answer(&mut self, question: &[u32], answer: &mut [u32], work: &mut [u32]) -> Reply {
        (**self).answer(question, answer, work)
    }
}
