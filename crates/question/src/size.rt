// How large questions are, before they are written.
ghost use Rattle.std.specs.Prelude.{◌≡◌, ◌^◌, ◌≤◌};
ghost use Rattle.sheet.specs.Sheets.{sheet_of};
ghost use Rattle.question.specs.Sizes.{state_clause_count, state_literal_count, first_clause_count, first_literal_count, second_clause_count, second_literal_count};

use sheet::legal::LegalSheet;

// How many clauses there are, and how many literals in all.
#[derive(Clone, Copy)]
pub(crate) struct Size {
    pub clauses: usize,
    pub literals: usize,
}

// A question of one frame: its clauses are the frame's, those of the formula gates, and two of one literal.
pub(crate) fn state_size(sheet: LegalSheet<'_>, gates: u32) -> Size
    ensures clauses { result.clauses ≡ state_clause_count (sheet_of sheet.entry.numbers.now) gates }
    ensures literals { result.literals ≡ state_literal_count (sheet_of sheet.entry.numbers.now) gates }
{
    let all_gates = sheet.gates() as usize + gates as usize;
    Size {
        clauses: 3 + 3 * all_gates,
        literals: 3 + 7 * all_gates,
    }
}

// The first part of a path question: frame 0, its link, the formula gates and one literal.
pub(crate) fn first_size(sheet: LegalSheet<'_>, gates: u32) -> Size
    ensures clauses { result.clauses ≡ first_clause_count (sheet_of sheet.entry.numbers.now) gates }
    ensures literals { result.literals ≡ first_literal_count (sheet_of sheet.entry.numbers.now) gates }
{
    let latches = sheet.latches() as usize;
    let all_gates = sheet.gates() as usize + gates as usize;
    Size {
        clauses: 2 + 3 * all_gates + 2 * latches,
        literals: 2 + 7 * all_gates + 4 * latches,
    }
}

// The second part: the other frames, the links between them, and `bad` in one of them.
pub(crate) fn second_size(sheet: LegalSheet<'_>, k: u32) -> Size
    requires { k ≤ 30 }
    ensures clauses { result.clauses ≡ second_clause_count (sheet_of sheet.entry.numbers.now) k }
    ensures literals { result.literals ≡ second_literal_count (sheet_of sheet.entry.numbers.now) k }
    ensures few { (result.clauses ≤ 2 ^ 16) × (result.literals ≤ 2 ^ 16) }
{
    let latches = sheet.latches() as usize;
    let gates = sheet.gates() as usize;
    let links = k as usize;
    let frames = links + 1;
    Size {
        clauses: frames * (1 + 3 * gates) + links * (2 * latches) + 1,
        literals: frames * (1 + 7 * gates) + links * (4 * latches) + frames,
    }
}
