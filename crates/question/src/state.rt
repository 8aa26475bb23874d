// The questions of one frame: in some state a formula and another literal are true.
ghost use Rattle.std.specs.Prelude.{◌≡◌, ◌+◌, ◌^◌, ◌≤◌, length};
ghost use Rattle.sheet.specs.Sheets.{sheet_of};
ghost use Rattle.formula.specs.Formulas.{width};
ghost use Rattle.question.specs.Clauses.{state_clauses};
ghost use Rattle.question.specs.Layout.{encode, posed, written};
ghost use Rattle.question.specs.Sizes.{state_clause_count, state_literal_count};
ghost use Rattle.question.specs.Writing.{both_clauses};

use crate::gates::{Formulas, GateList};
use crate::page::Page;
use crate::size::state_size;
use crate::unroll::put_frame;
use formula::frame::in_question;
use formula::question_literal::QuestionLiteral;
use sheet::legal::LegalSheet;
use sheet::literal::Literal;

// Writes a question of one frame, in which two literals are true.
fn write_state(
    formulas: Formulas<'_>,
    x: QuestionLiteral,
    y: QuestionLiteral,
    question: &mut [u32],
) -> usize
    requires frames { formulas.frames ≡ 1 }
    requires room { (4 + state_clause_count (sheet_of formulas.sheet.numbers.now) formulas.gates.count + state_literal_count (sheet_of formulas.sheet.numbers.now) formulas.gates.count ≤ length question.old) × (length question.old ≤ 2 ^ 28) }
    ensures { (result, question.new) ≡ written (encode (width (sheet_of formulas.entry.sheet.numbers.now) + formulas.entry.gates.count) 0 (both_clauses (sheet_of formulas.entry.sheet.numbers.now) formulas.entry.gates.list.now formulas.entry.gates.count x.0 y.0)) (length question.old) }
{
    let sheet = formulas.sheet;
    let gates = formulas.gates.count;
    let clauses = state_size(sheet, gates).clauses;
    let mut page = Page::begin(question, sheet.width() + gates, clauses, 0);
    put_frame(&mut page, sheet, 0);
    formulas.put(&mut page);
    page.put_clause(&[x]);
    page.put_clause(&[y]);
    page.finish()
}

// A question of one frame, in which the formula `x` and the literal `y` are true, if it fits.
pub(crate) fn pose_state(
    sheet: LegalSheet<'_>,
    gates: GateList<'_>,
    x: Literal,
    y: QuestionLiteral,
    question: &mut [u32],
) -> Option<usize>
    requires counts { length question.old ≤ 2 ^ 28 }
    ensures { (result, question.new) ≡ posed (encode (width (sheet_of sheet.entry.numbers.now) + gates.entry.count) 0 (state_clauses (sheet_of sheet.entry.numbers.now) gates.entry.list.now gates.entry.count x.0 y.0)) question.old }
{
    let size = state_size(sheet, gates.count);
    if question.len() < 4 + size.clauses + size.literals {
        return None;
    }
    let formulas = Formulas::new(sheet, gates, 1)?;
    let x = in_question(x, 1, sheet.width())?;
    Some(write_state(formulas, x, y, question))
}
