// Draws the interpolant of a refutation of a path question.
ghost use Rattle.std.specs.Prelude.{◌≡◌, ◌^◌, ◌≤◌, length, IfOk, OnOk};
ghost use Rattle.lists.specs.Counted.{counted};
ghost use Rattle.interpolant.specs.Drawing.{cleared, draw_all, interpolation, Adds, NeedsGates, SaysWhich, ZeroFrom};
ghost use Rattle.interpolant.specs.Interpolation.{line_count};
ghost use Rattle.interpolant.specs.Meaning.{DrawsFormula, Annotates, Interpolates, InterpolatesPath, LiesBetween};
ghost use Rattle.interpolant.specs.Parting.{cut_by};

use crate::lines::Drawing;
use crate::parts::Parts;
use formula::root::Root;
use lists::{counted, counted_len};
use question::read::{clause_count, number_at};
use sheet::literal::Literal;

// Which list has no room.
#[derive(Clone, Copy, PartialEq, Eq, Debug)]
pub enum Short {
    LineValues,
    Formula,
}

// Writes 0 into every place that counts.
pub fn clear(list: &mut [u32])
    ensures { list.new ≡ cleared list.old }
{
    let len = counted_len(list.len());
    list[0..len].fill(0);
}

// The drawing where every place of the line values counts.
fn draw(
    drawing: &Drawing<'_>,
    formula: &mut [u32],
    gates: u32,
    values: &mut [u32],
) -> Result<Root, Short>
    requires { length values.old ≤ 2 ^ 28 }
    ensures { (result, formula.new, values.new) ≡ draw_all drawing.now.parts.width (cut_by drawing.now.parts) drawing.now.question.now drawing.now.refutation.now gates formula.old values.old }
{
    let clauses = clause_count(drawing.question) as usize;
    let lines = clauses + number_at(drawing.refutation, 0) as usize;
    if lines > values.len() {
        return Err(Short::LineValues);
    }
    values.fill(0);
    let Some(gates) = drawing.lines(lines as u32, formula, gates, values) else {
        clear(formula);
        clear(values);
        return Err(Short::Formula);
    };
    let last = number_at(values, lines.saturating_sub(1));
    Ok(Root {
        literal: Literal::from_number(last),
        gates,
    })
}

// Draws the interpolant of a refutation of a path question into a formula list of `gates` gates, those that the question has.
// Every line gets a literal as its value, in order, which is left in the line value list, with zeros behind the last:
//   - a clause of the first part the OR of its literals of latches in frame 1, from literal 0 on, each as the latch's literal,
//   - any other clause of the question literal 1,
//   - a step the OR of its two lines' values if its pivot is of frame 0 or of a formula gate, else the AND.
// The last line's value is the interpolant. Without a place for every line nothing is written; without room for a gate both
// lists are 0. Of each list the first 2^28 places count. The sheet's counts are taken as they stand, and a number that a list
// is too short for counts as 0.
pub fn interpolate(
    sheet: &[u32],
    question: &[u32],
    refutation: &[u32],
    formula: &mut [u32],
    gates: u32,
    line_values: &mut [u32],
) -> Result<Root, Short>
    ensures draws_each_line_in_order { (result, formula.new, line_values.new) ≡ interpolation (counted sheet.now) (counted question.now) (counted refutation.now) formula.old gates line_values.old }
    ensures says_which_list_is_short { SaysWhich (counted question.now) (counted refutation.now) formula.old line_values.old (result, formula.new, line_values.new) }
    ensures line_values_are_zero_behind_the_lines { OnOk result (ZeroFrom (line_count (counted question.now) (counted refutation.now)) (counted line_values.new)) }
    ensures needs_at_most_a_gate_for_each_literal_and_step { NeedsGates (counted sheet.now) (counted question.now) (counted refutation.now) formula.old gates result }
    ensures adds_gates_and_leaves_the_rest { IfOk result (λ d. Adds formula.old gates formula.new d.gates) }
    ensures draws_a_formula_and_keeps_the_others { IfOk result (λ d. DrawsFormula (counted sheet.now) formula.old gates formula.new d) }
    ensures gives_each_line_its_partial_interpolant { IfOk result (λ d. Annotates (counted sheet.now) (counted question.now) (counted refutation.now) formula.old gates formula.new line_values.new d) }
    ensures separates_the_parts { IfOk result (λ d. Interpolates (counted sheet.now) (counted question.now) (counted refutation.now) formula.old gates formula.new d) }
    ensures separates_the_parts_of_a_path_question { IfOk result (λ d. InterpolatesPath (counted sheet.now) (counted question.now) (counted refutation.now) formula.old gates formula.new d) }
    ensures lies_between_a_step_and_bad_states { IfOk result (λ d. LiesBetween (counted sheet.now) (counted question.now) (counted refutation.now) formula.old gates formula.new d) }
{
    let drawing = Drawing {
        parts: Parts::new(sheet, question, gates),
        question: counted(question),
        refutation: counted(refutation),
    };
    let room = counted_len(line_values.len());
    draw(&drawing, formula, gates, &mut line_values[0..room])
}
