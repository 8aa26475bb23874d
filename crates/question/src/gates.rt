// The clauses of formulas: their gates, whose variables come after the last frame.
ghost use Rattle.std.specs.Prelude.{◌≡◌, ◌+◌, ◌*◌, ◌^◌, ◌<◌, ◌≤◌, ◌&&◌, length, take, is_some, IfSome, nat_le, nat_lt};
ghost use Rattle.std.specs.List.{list_all};
ghost use Rattle.lists.specs.Counted.{counted};
ghost use Rattle.sheet.specs.Sheets.{sheet_of};
ghost use Rattle.formula.specs.Formulas.{width, left_of, right_of};
ghost use Rattle.formula.specs.Framing.{in_question};
ghost use Rattle.question.specs.Clauses.{formula_gate, formula_clauses};
ghost use Rattle.question.specs.Writing.{held, puts, Room, Moved, OperandsFit};

use crate::page::Page;
use formula::frame::in_question;
use formula::question_literal::QuestionLiteral;
use lists::counted;
use sheet::legal::LegalSheet;
use sheet::literal::Literal;

// The gates of formulas: so many at the head of a list, which holds their operands in pairs.
#[derive(Clone, Copy)]
pub(crate) struct GateList<'a> {
    list: &'a [u32],
    pub count: u32,
    pub ghost whole: { 2 * count ≤ length list.now },
    pub ghost few: { length list.now ≤ 2 ^ 28 },
}

// A formula's literal in a question of so many frames, where it has 32 bits.
pub(crate) fn placed(sheet: LegalSheet<'_>, frames: u32, literal: Literal) -> QuestionLiteral
    requires { in_question (width (sheet_of sheet.numbers.now)) frames literal.0 < 2 ^ 32 }
    ensures { result.0 ≡ in_question (width (sheet_of sheet.entry.numbers.now)) frames literal.0 }
{
    in_question(literal, frames, sheet.width()).unwrap()
}

impl<'a> GateList<'a> {
    // None for a list with fewer gates.
    pub(crate) fn new(list: &'a [u32], count: u32) -> Option<GateList<'a>>
        ensures is_the_test { is_some result ≡ nat_le (2 * count) (length (counted list.now)) }
        ensures is_the_list { IfSome result (λ gates. (gates.list.now ≡ counted list.now) × (gates.count ≡ count)) }
    {
        let list = counted(list);
        if list.len() < 2 * count as usize {
            return None;
        }
        Some(GateList { list, count })
    }

    // The left operand of gate `g`, and its right one.
    fn operands(self, g: u32) -> (Literal, Literal)
        requires { g < self.count }
        ensures { (result.0.0 ≡ left_of self.entry.list.now g) × (result.1.0 ≡ right_of self.entry.list.now g) }
    {
        let place = 2 * g as usize;
        (
            Literal::from_number(self.list[place]),
            Literal::from_number(self.list[place + 1]),
        )
    }

    // Whether each operand has 32 bits in a question of so many frames.
    fn fits(self, sheet: LegalSheet<'_>, frames: u32) -> bool
        ensures { result ≡ list_all (λ x. nat_lt (in_question (width (sheet_of sheet.entry.numbers.now)) frames x) (2 ^ 32)) (take (2 * self.entry.count) self.entry.list.now) }
    {
        let operands = &self.list[..2 * self.count as usize];
        operands.iter().all(|x| in_question(
            Literal::from_number(*x),
            frames,
            sheet.width(),
        ).is_some())
    }
}

// The gates of formulas in a question of so many frames, where each operand has 32 bits.
#[derive(Clone, Copy)]
pub(crate) struct Formulas<'a> {
    pub sheet: LegalSheet<'a>,
    pub gates: GateList<'a>,
    pub frames: u32,
    pub ghost bound: { (1 ≤ frames) × (frames ≤ 32) },
    pub ghost bits: { OperandsFit (width (sheet_of sheet.numbers.now)) frames gates.list.now gates.count },
}

impl<'a> Formulas<'a> {
    // None where an operand leaves 32 bits.
    pub(crate) fn new(
        sheet: LegalSheet<'a>,
        gates: GateList<'a>,
        frames: u32,
    ) -> Option<Formulas<'a>>
        requires { (1 ≤ frames) × (frames ≤ 32) }
        ensures is_the_test { is_some result ≡ list_all (λ x. nat_lt (in_question (width (sheet_of sheet.entry.numbers.now)) frames x) (2 ^ 32)) (take (2 * gates.entry.count) gates.entry.list.now) }
        ensures has_what_was_given { IfSome result (λ formulas. (formulas.sheet.numbers.now ≡ sheet.entry.numbers.now) × (formulas.gates.list.now ≡ gates.entry.list.now) × (formulas.gates.count ≡ gates.entry.count) × (formulas.frames ≡ frames)) }
    {
        if !gates.fits(sheet, frames) {
            return None;
        }
        Some(Formulas {
            sheet,
            gates,
            frames,
        })
    }

    // The three clauses of gate `g`.
    fn put_gate(self, page: &mut Page<'_>, g: u32)
        requires place { g < self.gates.count }
        requires room { Room page.old 3 7 }
        ensures page { held page.new ≡ puts (held page.old) (formula_gate (sheet_of self.entry.sheet.numbers.now) self.entry.frames self.entry.gates.list.now g) }
        ensures moved { Moved page.old page.new 3 7 }
    {
        let gate = Literal::from_number(2 * (self.sheet.width() + g));
        let (left, right) = self.gates.operands(g);
        page.put_and(
            placed(self.sheet, self.frames, gate),
            placed(self.sheet, self.frames, left),
            placed(self.sheet, self.frames, right),
        );
    }

    // All gates.
    pub(crate) fn put(self, page: &mut Page<'_>)
        requires room { Room page.old (3 * self.gates.count) (7 * self.gates.count) }
        ensures page { held page.new ≡ puts (held page.old) (formula_clauses (sheet_of self.entry.sheet.numbers.now) self.entry.frames self.entry.gates.list.now self.entry.gates.count) }
        ensures moved { Moved page.old page.new (3 * self.entry.gates.count) (7 * self.entry.gates.count) }
    {
        for g in 0..self.gates.count {
            self.put_gate(page, g);
        }
    }
}
