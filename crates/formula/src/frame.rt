// Where the literals of a sheet and of formulas stand in a question: frames are copies of the sheet's nodes, one behind the
// other, and the gates of formulas come after the last frame.
ghost use Rattle.std.specs.Prelude.{◌≡◌, ◌/◌, ◌<◌, IfSome, Some};
ghost use Rattle.sheet.specs.Trip.{Iff};
ghost use Rattle.sheet.specs.declared.literal.Literal.{Literal};
ghost use Rattle.formula.specs.Framing.{in_frame, in_question, out_of_frame_one, question_literal};

use crate::question_literal::QuestionLiteral;
use sheet::literal::Literal;

// The literal of a sheet's literal in a frame, where a frame has `width` nodes. None if it leaves 32 bits.
pub fn in_frame(x: Literal, frame: u32, width: u32) -> Option<QuestionLiteral>
    ensures is_in_the_frame { result ≡ question_literal (in_frame width frame x.0) }
    ensures is_found_again_in_frame_one { frame ≡ 1 → x.0 / 2 < width → IfSome result (λ y. out_of_frame_one width y.0 ≡ Some x) }
{
    let offset = frame.checked_mul(width)?.checked_mul(2)?;
    x.number()
        .checked_add(offset)
        .map(QuestionLiteral::from_number)
}

// The literal of a formula's literal in a question of so many frames: the sheet's own nodes stand in frame 0, and the gates
// after the last frame. None if it leaves 32 bits.
pub fn in_question(x: Literal, frames: u32, width: u32) -> Option<QuestionLiteral>
    ensures is_in_the_question { result ≡ question_literal (in_question width frames x.0) }
{
    if x.node() < width {
        Some(QuestionLiteral::from_number(x.number()))
    } else {
        in_frame(x, frames.saturating_sub(1), width)
    }
}

// The sheet's literal of a literal of frame 1. None for a literal of any other frame.
pub fn out_of_frame_one(x: QuestionLiteral, width: u32) -> Option<Literal>
    ensures is_out_of_frame_one { result ≡ out_of_frame_one width x.0 }
    ensures undoes_frame_one { (y : Literal) → Iff (result ≡ Some y) ((y.0 / 2 < width) × (in_frame width 1 y.0 ≡ x.0)) }
{
    let node = x.variable().checked_sub(width)?;
    if node >= width {
        return None;
    }
    Some(Literal::from_number(x.number() - 2 * width))
}
