// Writing clauses into a list: the places where they start stand in front, and the literals behind all places.
ghost use Rattle.std.specs.Prelude.{◌≡◌, ◌+◌, ◌%◌, ◌^◌, ◌<◌, ◌≤◌, [], ◌∷◌, map, length};
ghost use Rattle.question.specs.Clauses.{and_clauses};
ghost use Rattle.question.specs.Writing.{held, begun, opened, pushed, put, puts, closed, Room, Moved, number};

use formula::question_literal::QuestionLiteral;

// A question that is being written: its list, where the place of the next clause goes, and where the next literal.
pub(crate) struct Page<'a> {
    question: &'a mut [u32],
    at: usize,
    to: usize,
}

impl<'a> Page<'a> {
    // The counts of a question, with nothing but zeros behind them.
    pub(crate) fn begin(
        question: &'a mut [u32],
        variables: u32,
        clauses: usize,
        first: usize,
    ) -> Page<'a>
        requires room { 4 + clauses ≤ length question.old }
        requires bits { (clauses < 2 ^ 32) × (first < 2 ^ 32) }
        ensures page { held result ≡ begun (length question.old) variables clauses first }
        ensures same_list { result.question.ghost_name ≡ question.entry.ghost_name }
    {
        question.fill(0);
        question[0] = variables;
        question[1] = clauses as u32;
        question[2] = first as u32;
        Page {
            question,
            at: 3,
            to: 4 + clauses,
        }
    }

    // The next clause starts.
    pub(crate) fn open_clause(&mut self)
        requires room { Room self.old 1 0 }
        ensures page { held self.new ≡ opened (held self.old) }
        ensures moved { Moved self.old self.new 1 0 }
    {
        self.question[self.at] = self.to as u32;
        self.at += 1;
    }

    pub(crate) fn push_literal(&mut self, literal: QuestionLiteral)
        requires room { Room self.old 0 1 }
        ensures page { held self.new ≡ pushed (held self.old) literal.0 }
        ensures moved { Moved self.old self.new 0 1 }
    {
        self.question[self.to] = literal.number();
        self.to += 1;
    }

    pub(crate) fn put_clause(&mut self, literals: &[QuestionLiteral])
        requires room { Room self.old 1 (length literals.now) }
        ensures page { held self.new ≡ put (held self.old) (map number literals.now) }
        ensures moved { Moved self.old self.new 1 (length literals.now) }
    {
        self.open_clause();
        for literal in literals {
            self.push_literal(*literal);
        }
    }

    // Two clauses. The places stand in a page of the function's own meanwhile: in `self` they are read again after each store.
    pub(crate) fn put_two(&mut self, first: &[QuestionLiteral], second: &[QuestionLiteral])
        requires room { Room self.old 2 (length first.now + length second.now) }
        ensures page { held self.new ≡ puts (held self.old) (map number first.now ∷ map number second.now ∷ []) }
        ensures moved { Moved self.old self.new 2 (length first.now + length second.now) }
    {
        let mut page = Page {
            question: self.question,
            at: self.at,
            to: self.to,
        };
        page.put_clause(first);
        page.put_clause(second);
        let Page {
            question: _,
            at,
            to,
        } = page;
        self.at = at;
        self.to = to;
    }

    // The three clauses that a gate is the AND of two literals; the right one's variable is the lowest, so that literals
    // ascend. The places stand in a page of its own, as in `put_two`.
    pub(crate) fn put_and(
        &mut self,
        gate: QuestionLiteral,
        left: QuestionLiteral,
        right: QuestionLiteral,
    )
        requires plain { gate.0 % 2 ≡ 0 }
        requires room { Room self.old 3 7 }
        ensures page { held self.new ≡ puts (held self.old) (and_clauses gate.0 left.0 right.0) }
        ensures moved { Moved self.old self.new 3 7 }
    {
        let negated = gate.opposite();
        let mut page = Page {
            question: self.question,
            at: self.at,
            to: self.to,
        };
        page.put_clause(&[left, negated]);
        page.put_clause(&[right, negated]);
        page.put_clause(&[right.opposite(), left.opposite(), gate]);
        let Page {
            question: _,
            at,
            to,
        } = page;
        self.at = at;
        self.to = to;
    }

    // The place where the last clause ends, which is how long the question is.
    pub(crate) fn finish(self) -> usize
        requires { (self.at < length self.question.now) × (self.to < 2 ^ 32) }
        ensures { (result, self.exit.0.now) ≡ closed (held self.entry) }
    {
        let Page { question, at, to } = self;
        question[at] = to as u32;
        to
    }
}
