// Building the three questions of a sheet and of formulas over its latches, which lie in a lent list of gates.
ghost use Rattle.std.specs.Prelude.{◌≡◌, ◌+◌, ◌*◌, ◌≤◌, true, ◌&&◌, length, take, is_some, IfSome, nat_le};
ghost use Rattle.lists.specs.Counted.{counted};
ghost use Rattle.sheet.specs.Sheets.{sheet_of, Legal};
ghost use Rattle.sheet.specs.Trip.{Iff};
ghost use Rattle.formula.specs.Formulas.{width, Formula, Gates};
ghost use Rattle.question.specs.Clauses.{start_clauses, first_clauses, path_clauses, inclusion_clauses};
ghost use Rattle.question.specs.Laid.{Lays, Tells, Parted};
ghost use Rattle.question.specs.Layout.{start_list, path_list, inclusion_list, given, posed_if};
ghost use Rattle.question.specs.Meaning.{BadInR, BadAfter, Outside, StartTells, PathTells, InclusionTells};
ghost use Rattle.question.specs.Offsets.{NumbersStart, NumbersPath, NumbersInclusion};
ghost use Rattle.question.specs.Questions.{IsQuestion, Satisfiable};
ghost use Rattle.question.specs.Sizes.{state_clause_count, state_literal_count, first_clause_count, first_literal_count, second_clause_count, second_literal_count};

use crate::gates::{GateList, placed};
use crate::path::pose_path;
use crate::state::pose_state;
use crate::unroll::bad_in;
use lists::counted_len;
use sheet::legal::LegalSheet;
use sheet::literal::Literal;

// The largest bound of a path question.
const MOST_BOUND: u32 = 30;

// Asks whether a state in `r` is bad. The question goes into `question`, with zeros behind it, and its length is returned.
// None, with nothing written, for a sheet that is not legal, for a formula list with fewer gates, and if the question does not
// fit: there is no room, or a literal of a formula leaves 32 bits.
pub fn start_question(
    sheet: &[u32],
    formula: &[u32],
    gates: u32,
    r: Literal,
    question: &mut [u32],
) -> Option<usize>
    ensures poses_the_start_question { (result, question.new) ≡ posed_if (given sheet.now formula.now gates) (start_list (sheet_of (counted sheet.now)) (counted formula.now) gates r.0) question.old }
    ensures takes_all_that_fits { Legal (counted sheet.now) → Gates (sheet_of (counted sheet.now)) (counted formula.now) gates → Formula (sheet_of (counted sheet.now)) gates r.0 → Iff (is_some result ≡ true) (length (start_list (sheet_of (counted sheet.now)) (counted formula.now) gates r.0) ≤ length (counted question.old)) }
    ensures has_a_closed_length { length (start_list (sheet_of (counted sheet.now)) (counted formula.now) gates r.0) ≡ 4 + state_clause_count (sheet_of (counted sheet.now)) gates + state_literal_count (sheet_of (counted sheet.now)) gates }
    ensures lays_out_the_clauses { IfSome result (λ m. Lays (take m question.new) (width (sheet_of (counted sheet.now)) + gates) 0 (start_clauses (sheet_of (counted sheet.now)) (counted formula.now) gates r.0)) }
    ensures is_a_question { Gates (sheet_of (counted sheet.now)) (counted formula.now) gates → Formula (sheet_of (counted sheet.now)) gates r.0 → IfSome result (λ m. IsQuestion (take m question.new)) }
    ensures asks_for_a_bad_state { Gates (sheet_of (counted sheet.now)) (counted formula.now) gates → Formula (sheet_of (counted sheet.now)) gates r.0 → IfSome result (λ m. Iff (Satisfiable (take m question.new)) (BadInR (sheet_of (counted sheet.now)) (counted formula.now) gates r.0)) }
    ensures tells_the_state { Gates (sheet_of (counted sheet.now)) (counted formula.now) gates → Formula (sheet_of (counted sheet.now)) gates r.0 → IfSome result (λ m. Tells (StartTells (sheet_of (counted sheet.now)) (counted formula.now) gates r.0) (take m question.new)) }
    ensures numbers_the_clauses { IfSome result (λ m. NumbersStart (sheet_of (counted sheet.now)) (counted formula.now) gates r.0 (take m question.new)) }
{
    let sheet = LegalSheet::new(sheet)?;
    let gates = GateList::new(formula, gates)?;
    let bad = bad_in(sheet, 0);
    let len = counted_len(question.len());
    pose_state(sheet, gates, r, bad, &mut question[0..len])
}

// Asks whether a bad state is reached from a state in `r` in 1 to `k + 1` steps. The result and the list are as for the start
// question; None also for a bound past 30.
pub fn path_question(
    sheet: &[u32],
    formula: &[u32],
    gates: u32,
    r: Literal,
    k: u32,
    question: &mut [u32],
) -> Option<usize>
    ensures poses_the_path_question { (result, question.new) ≡ posed_if (nat_le k 30 && given sheet.now formula.now gates) (path_list (sheet_of (counted sheet.now)) (counted formula.now) gates r.0 k) question.old }
    ensures takes_all_that_fits { k ≤ 30 → Legal (counted sheet.now) → Gates (sheet_of (counted sheet.now)) (counted formula.now) gates → Formula (sheet_of (counted sheet.now)) gates r.0 → Iff (is_some result ≡ true) (length (path_list (sheet_of (counted sheet.now)) (counted formula.now) gates r.0 k) ≤ length (counted question.old)) }
    ensures has_a_closed_length { length (path_list (sheet_of (counted sheet.now)) (counted formula.now) gates r.0 k) ≡ 4 + (first_clause_count (sheet_of (counted sheet.now)) gates + second_clause_count (sheet_of (counted sheet.now)) k) + (first_literal_count (sheet_of (counted sheet.now)) gates + second_literal_count (sheet_of (counted sheet.now)) k) }
    ensures lays_out_the_clauses { IfSome result (λ m. Lays (take m question.new) ((k + 2) * width (sheet_of (counted sheet.now)) + gates) (length (first_clauses (sheet_of (counted sheet.now)) (counted formula.now) gates r.0 k)) (path_clauses (sheet_of (counted sheet.now)) (counted formula.now) gates r.0 k)) }
    ensures is_a_question { Gates (sheet_of (counted sheet.now)) (counted formula.now) gates → Formula (sheet_of (counted sheet.now)) gates r.0 → IfSome result (λ m. IsQuestion (take m question.new)) }
    ensures asks_for_a_bad_state_ahead { Gates (sheet_of (counted sheet.now)) (counted formula.now) gates → Formula (sheet_of (counted sheet.now)) gates r.0 → IfSome result (λ m. Iff (Satisfiable (take m question.new)) (BadAfter (sheet_of (counted sheet.now)) (counted formula.now) gates r.0 k)) }
    ensures tells_the_frames { Gates (sheet_of (counted sheet.now)) (counted formula.now) gates → Formula (sheet_of (counted sheet.now)) gates r.0 → IfSome result (λ m. Tells (PathTells (sheet_of (counted sheet.now)) (counted formula.now) gates r.0 k) (take m question.new)) }
    ensures parts_have_their_variables { Gates (sheet_of (counted sheet.now)) (counted formula.now) gates → Formula (sheet_of (counted sheet.now)) gates r.0 → IfSome result (λ m. Parted (sheet_of (counted sheet.now)) k (take m question.new)) }
    ensures numbers_the_clauses { IfSome result (λ m. NumbersPath (sheet_of (counted sheet.now)) (counted formula.now) gates r.0 k (take m question.new)) }
{
    if k > MOST_BOUND {
        return None;
    }
    let sheet = LegalSheet::new(sheet)?;
    let gates = GateList::new(formula, gates)?;
    let len = counted_len(question.len());
    pose_path(sheet, gates, r, k, &mut question[0..len])
}

// Asks whether a state in `p` is outside `r`. The result and the list are as for the start question.
pub fn inclusion_question(
    sheet: &[u32],
    formula: &[u32],
    gates: u32,
    p: Literal,
    r: Literal,
    question: &mut [u32],
) -> Option<usize>
    ensures poses_the_inclusion_question { (result, question.new) ≡ posed_if (given sheet.now formula.now gates) (inclusion_list (sheet_of (counted sheet.now)) (counted formula.now) gates p.0 r.0) question.old }
    ensures takes_all_that_fits { Legal (counted sheet.now) → Gates (sheet_of (counted sheet.now)) (counted formula.now) gates → Formula (sheet_of (counted sheet.now)) gates p.0 → Formula (sheet_of (counted sheet.now)) gates r.0 → Iff (is_some result ≡ true) (length (inclusion_list (sheet_of (counted sheet.now)) (counted formula.now) gates p.0 r.0) ≤ length (counted question.old)) }
    ensures has_a_closed_length { length (inclusion_list (sheet_of (counted sheet.now)) (counted formula.now) gates p.0 r.0) ≡ 4 + state_clause_count (sheet_of (counted sheet.now)) gates + state_literal_count (sheet_of (counted sheet.now)) gates }
    ensures lays_out_the_clauses { IfSome result (λ m. Lays (take m question.new) (width (sheet_of (counted sheet.now)) + gates) 0 (inclusion_clauses (sheet_of (counted sheet.now)) (counted formula.now) gates p.0 r.0)) }
    ensures is_a_question { Gates (sheet_of (counted sheet.now)) (counted formula.now) gates → Formula (sheet_of (counted sheet.now)) gates p.0 → Formula (sheet_of (counted sheet.now)) gates r.0 → IfSome result (λ m. IsQuestion (take m question.new)) }
    ensures asks_for_a_state_outside { Gates (sheet_of (counted sheet.now)) (counted formula.now) gates → Formula (sheet_of (counted sheet.now)) gates p.0 → Formula (sheet_of (counted sheet.now)) gates r.0 → IfSome result (λ m. Iff (Satisfiable (take m question.new)) (Outside (sheet_of (counted sheet.now)) (counted formula.now) gates p.0 r.0)) }
    ensures tells_the_state { Gates (sheet_of (counted sheet.now)) (counted formula.now) gates → Formula (sheet_of (counted sheet.now)) gates p.0 → Formula (sheet_of (counted sheet.now)) gates r.0 → IfSome result (λ m. Tells (InclusionTells (sheet_of (counted sheet.now)) (counted formula.now) gates p.0 r.0) (take m question.new)) }
    ensures numbers_the_clauses { IfSome result (λ m. NumbersInclusion (sheet_of (counted sheet.now)) (counted formula.now) gates p.0 r.0 (take m question.new)) }
{
    let sheet = LegalSheet::new(sheet)?;
    let gates = GateList::new(formula, gates)?;
    let outside = placed(sheet, 1, r.opposite());
    let len = counted_len(question.len());
    pose_state(sheet, gates, p, outside, &mut question[0..len])
}
