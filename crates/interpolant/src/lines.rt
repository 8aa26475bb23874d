// The lines of a refutation, drawn one by one: each gets a literal of the formula list as its value.
ghost use Rattle.std.specs.Prelude.{◌≡◌, ◌^◌, ◌≤◌, length};
ghost use Rattle.interpolant.specs.Drawing.{or_shared, draw_step, draw_line, draw_lines, Stays, Gives, GivesAll};
ghost use Rattle.interpolant.specs.Parting.{cut_by};

use crate::parts::Parts;
use answer::steps::{Step, step_at};
use formula::builder::Builder;
use formula::question_literal::QuestionLiteral;
use formula::root::Root;
use question::read::{clause, clause_count, number_at};
use sheet::literal::Literal;

// The OR of a clause's shared literals, each as the literal of a latch.
fn draw_clause(parts: Parts, clause: &[u32], formula: &mut [u32], gates: u32) -> Option<Root>
    ensures gives { Gives result formula.new (or_shared parts.width (cut_by parts) clause.now 0 gates formula.old) }
    ensures keeps { Stays formula.old formula.new }
{
    let mut builder = Builder {
        width: parts.width,
        count: gates,
    };
    let mut literal = Literal::from_number(0);
    for x in clause {
        if let Some(latch) = parts.latch_in(QuestionLiteral::from_number(*x)) {
            literal = builder.or(formula, literal, latch)?;
        }
    }
    Some(Root {
        literal,
        gates: builder.count,
    })
}

// The OR of the values of a step's lines if its pivot is local, else the AND.
fn draw_step(
    parts: Parts,
    step: Step,
    values: &[u32],
    formula: &mut [u32],
    gates: u32,
) -> Option<Root>
    ensures gives { Gives result formula.new (draw_step parts.width (cut_by parts) values.now step gates formula.old) }
    ensures keeps { Stays formula.old formula.new }
{
    let mut builder = Builder {
        width: parts.width,
        count: gates,
    };
    let first = Literal::from_number(number_at(values, step.first as usize));
    let second = Literal::from_number(number_at(values, step.second as usize));
    let literal = if parts.is_local(step.pivot) {
        builder.or(formula, first, second)?
    } else {
        builder.and(formula, first, second)?
    };
    Some(Root {
        literal,
        gates: builder.count,
    })
}

// What is drawn: the lines of a refutation of a question that is cut in two.
#[derive(Clone, Copy)]
pub(crate) struct Drawing<'a> {
    pub parts: Parts,
    pub question: &'a [u32],
    pub refutation: &'a [u32],
    pub ghost few_clauses: { length question.now ≤ 2 ^ 28 },
    pub ghost few_steps: { length refutation.now ≤ 2 ^ 28 },
}

impl Drawing<'_> {
    // A clause of the question, or a step. A clause of the second part is 1.
    fn line(&self, line: u32, values: &[u32], formula: &mut [u32], gates: u32) -> Option<Root>
        ensures gives { Gives result formula.new (draw_line self.now.parts.width (cut_by self.now.parts) self.now.question.now self.now.refutation.now values.now line gates formula.old) }
        ensures keeps { Stays formula.old formula.new }
    {
        let clauses = clause_count(self.question);
        if line >= clauses {
            let step = step_at(self.refutation, line - clauses);
            return draw_step(self.parts, step, values, formula, gates);
        }
        if line >= self.parts.first {
            return Some(Root {
                literal: Literal::from_number(1),
                gates,
            });
        }
        draw_clause(self.parts, clause(self.question, line), formula, gates)
    }

    // The first lines in order, each with its value in `values`. Answers how many gates there are then; None if there is no room
    // for one.
    pub(crate) fn lines(
        &self,
        lines: u32,
        formula: &mut [u32],
        gates: u32,
        values: &mut [u32],
    ) -> Option<u32>
        requires { lines ≤ length values.old }
        ensures gives { GivesAll result formula.new values.new (draw_lines self.now.parts.width (cut_by self.now.parts) self.now.question.now self.now.refutation.now lines 0 values.old gates formula.old) }
        ensures keeps { Stays formula.old formula.new }
    {
        let mut count = gates;
        for line in 0..lines {
            let drawn = self.line(line, values, formula, count)?;
            values[line as usize] = drawn.literal.number();
            count = drawn.gates;
        }
        Some(count)
    }
}
