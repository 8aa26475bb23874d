// The path question: its first part has frame 0, its second part the frames after it.
ghost use Rattle.std.specs.Prelude.{◌≡◌, ◌+◌, ◌*◌, ◌^◌, ◌<◌, ◌≤◌, length};
ghost use Rattle.sheet.specs.Sheets.{sheet_of};
ghost use Rattle.question.specs.Clauses.{second_clauses};
ghost use Rattle.question.specs.Layout.{path_list, posed, written};
ghost use Rattle.question.specs.Sizes.{first_clause_count, first_literal_count, second_clause_count, second_literal_count};
ghost use Rattle.question.specs.Writing.{begin_clauses, begun_list, held, puts, Room, Moved};

use crate::gates::{Formulas, GateList};
use crate::page::Page;
use crate::size::{first_size, second_size};
use crate::unroll::{put_bad, put_frame, put_frames, put_link, put_links};
use formula::frame::in_question;
use formula::question_literal::QuestionLiteral;
use sheet::legal::LegalSheet;
use sheet::literal::Literal;

// The first part of a path question: frame 0, its link, the formula gates and `r`.
fn put_first(page: &mut Page<'_>, formulas: Formulas<'_>, r: QuestionLiteral, k: u32)
    requires frames { formulas.frames ≡ k + 2 }
    requires room { Room page.old (first_clause_count (sheet_of formulas.sheet.numbers.now) formulas.gates.count) (first_literal_count (sheet_of formulas.sheet.numbers.now) formulas.gates.count) }
    ensures page { held page.new ≡ puts (held page.old) (begin_clauses (sheet_of formulas.entry.sheet.numbers.now) formulas.entry.gates.list.now formulas.entry.gates.count r.0 k) }
    ensures moved { Moved page.old page.new (first_clause_count (sheet_of formulas.entry.sheet.numbers.now) formulas.entry.gates.count) (first_literal_count (sheet_of formulas.entry.sheet.numbers.now) formulas.entry.gates.count) }
{
    put_frame(page, formulas.sheet, 0);
    put_link(page, formulas.sheet, 0);
    formulas.put(page);
    page.put_clause(&[r]);
}

// The second part: the other frames, the links between them, and `bad` in one of them.
fn put_second(page: &mut Page<'_>, sheet: LegalSheet<'_>, k: u32)
    requires bound { k ≤ 30 }
    requires room { Room page.old (second_clause_count (sheet_of sheet.numbers.now) k) (second_literal_count (sheet_of sheet.numbers.now) k) }
    ensures page { held page.new ≡ puts (held page.old) (second_clauses (sheet_of sheet.entry.numbers.now) k) }
    ensures moved { Moved page.old page.new (second_clause_count (sheet_of sheet.entry.numbers.now) k) (second_literal_count (sheet_of sheet.entry.numbers.now) k) }
{
    put_frames(page, sheet, k);
    put_links(page, sheet, k);
    put_bad(page, sheet, k);
}

// Writes a path question, in a list that has room for it.
fn write_path(formulas: Formulas<'_>, r: QuestionLiteral, k: u32, question: &mut [u32]) -> usize
    requires frames { formulas.frames ≡ k + 2 }
    requires room { (4 + (first_clause_count (sheet_of formulas.sheet.numbers.now) formulas.gates.count + second_clause_count (sheet_of formulas.sheet.numbers.now) k) + (first_literal_count (sheet_of formulas.sheet.numbers.now) formulas.gates.count + second_literal_count (sheet_of formulas.sheet.numbers.now) k) ≤ length question.old) × (length question.old ≤ 2 ^ 28) }
    ensures { (result, question.new) ≡ written (begun_list (sheet_of formulas.entry.sheet.numbers.now) formulas.entry.gates.list.now formulas.entry.gates.count r.0 k) (length question.old) }
{
    let sheet = formulas.sheet;
    let gates = formulas.gates.count;
    let first = first_size(sheet, gates).clauses;
    let clauses = first + second_size(sheet, k).clauses;
    let variables = formulas.frames * sheet.width() + gates;
    let mut page = Page::begin(question, variables, clauses, first);
    put_first(&mut page, formulas, r, k);
    put_second(&mut page, sheet, k);
    page.finish()
}

// A path question, if it fits.
pub(crate) fn pose_path(
    sheet: LegalSheet<'_>,
    gates: GateList<'_>,
    r: Literal,
    k: u32,
    question: &mut [u32],
) -> Option<usize>
    requires bound { k ≤ 30 }
    requires counts { length question.old ≤ 2 ^ 28 }
    ensures { (result, question.new) ≡ posed (path_list (sheet_of sheet.entry.numbers.now) gates.entry.list.now gates.entry.count r.0 k) question.old }
{
    let first = first_size(sheet, gates.count);
    let second = second_size(sheet, k);
    let clauses = first.clauses + second.clauses;
    let literals = first.literals + second.literals;
    if question.len() < 4 + clauses + literals {
        return None;
    }
    let formulas = Formulas::new(sheet, gates, k + 2)?;
    let r = in_question(r, k + 2, sheet.width())?;
    Some(write_path(formulas, r, k, question))
}
