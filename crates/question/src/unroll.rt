// The clauses of a sheet: its gates in each frame, the links between frames, and `bad` in one of them.
// A frame is a copy of the sheet's nodes for one state of a path.
ghost use Rattle.std.specs.Prelude.{◌≡◌, ◌+◌, ◌*◌, ◌/◌, ◌<◌, ◌≤◌};
ghost use Rattle.lists.specs.Stretch.{stretch};
ghost use Rattle.sheet.specs.Sheets.{sheet_of, latch_count, gate_count, node_count, left_of, right_of};
ghost use Rattle.formula.specs.Formulas.{width};
ghost use Rattle.formula.specs.Framing.{in_frame};
ghost use Rattle.question.specs.Clauses.{gate_clauses, frame_clauses, latch_clauses, link_clauses, bad_clauses};
ghost use Rattle.question.specs.Writing.{held, puts, Room, Moved};

use crate::page::Page;
use formula::frame::in_frame;
use formula::question_literal::QuestionLiteral;
use sheet::legal::LegalSheet;
use sheet::literal::Literal;

// A literal of a sheet of so many nodes in one of at most 32 frames, where it always has 32 bits. A loop asks for the sheet's
// width once, before it: after each store into the page the counts would be read again.
fn framed(nodes: u32, t: u32, literal: Literal) -> QuestionLiteral
    requires frame { t ≤ 31 }
    requires few { nodes ≤ 249 }
    requires node { literal.0 / 2 < nodes }
    ensures { result.0 ≡ in_frame nodes t literal.0 }
{
    in_frame(literal, t, nodes).unwrap()
}

// The bad literal in a frame.
pub(crate) fn bad_in(sheet: LegalSheet<'_>, t: u32) -> QuestionLiteral
    requires frame { t ≤ 31 }
    ensures { result.0 ≡ in_frame (width (sheet_of sheet.entry.numbers.now)) t (sheet_of sheet.entry.numbers.now).bad }
{
    framed(sheet.width(), t, sheet.bad())
}

// The left operand of gate `g`, and its right one, without the tests of `LegalSheet::operands`, which takes any number.
#[tactic(auto, using(crate::proofs::Pairs::left_at, crate::proofs::Pairs::right_at))]
fn operands(sheet: LegalSheet<'_>, g: u32) -> (Literal, Literal)
    requires { g < gate_count sheet.numbers.now }
    ensures { (result.0.0 ≡ left_of sheet.entry.numbers.now g) × (result.1.0 ≡ right_of sheet.entry.numbers.now g) }
{
    let pairs = sheet.gate_pairs();
    let place = 2 * g as usize;
    (
        Literal::from_number(pairs[place]),
        Literal::from_number(pairs[place + 1]),
    )
}

// The three clauses of gate `g` in frame `t` of a sheet of so many nodes.
fn put_gate(page: &mut Page<'_>, sheet: LegalSheet<'_>, nodes: u32, t: u32, g: u32)
    requires nodes { nodes ≡ node_count sheet.numbers.now }
    requires place { (t ≤ 31) × (g < gate_count sheet.numbers.now) }
    requires room { Room page.old 3 7 }
    ensures page { held page.new ≡ puts (held page.old) (gate_clauses (sheet_of sheet.entry.numbers.now) t g) }
    ensures moved { Moved page.old page.new 3 7 }
{
    let gate = Literal::from_number(2 * (sheet.first_gate() + g));
    let (left, right) = operands(sheet, g);
    page.put_and(
        framed(nodes, t, gate),
        framed(nodes, t, left),
        framed(nodes, t, right),
    );
}

// Frame `t`: node 0 is false, and each gate is an AND.
pub(crate) fn put_frame(page: &mut Page<'_>, sheet: LegalSheet<'_>, t: u32)
    requires place { t ≤ 31 }
    requires room { Room page.old (1 + 3 * gate_count sheet.numbers.now) (1 + 7 * gate_count sheet.numbers.now) }
    ensures page { held page.new ≡ puts (held page.old) (frame_clauses (sheet_of sheet.entry.numbers.now) t) }
    ensures moved { Moved page.old page.new (1 + 3 * gate_count sheet.entry.numbers.now) (1 + 7 * gate_count sheet.entry.numbers.now) }
{
    let nodes = sheet.width();
    let constant = framed(nodes, t, Literal::from_number(1));
    page.put_clause(&[constant]);
    for g in 0..sheet.gates() {
        put_gate(page, sheet, nodes, t, g);
    }
}

// The two clauses of latch `i` between the frames `t` and `t + 1` of a sheet of so many nodes.
fn put_latch(page: &mut Page<'_>, sheet: LegalSheet<'_>, nodes: u32, t: u32, i: u32)
    requires nodes { nodes ≡ node_count sheet.numbers.now }
    requires place { (t ≤ 30) × (i < latch_count sheet.numbers.now) }
    requires room { Room page.old 2 4 }
    ensures page { held page.new ≡ puts (held page.old) (latch_clauses (sheet_of sheet.entry.numbers.now) t i) }
    ensures moved { Moved page.old page.new 2 4 }
{
    let next = sheet.next(i);
    let latch = Literal::from_number(2 * (sheet.first_latch() + i));
    let is_next = framed(nodes, t, next);
    let not_next = framed(nodes, t, next.opposite());
    let is_set = framed(nodes, t + 1, latch);
    let not_set = framed(nodes, t + 1, latch.opposite());
    page.put_two(&[is_next, not_set], &[not_next, is_set]);
}

// Link `t`: each latch has in frame `t + 1` the value of its `next` in frame `t`.
pub(crate) fn put_link(page: &mut Page<'_>, sheet: LegalSheet<'_>, t: u32)
    requires place { t ≤ 30 }
    requires room { Room page.old (2 * latch_count sheet.numbers.now) (4 * latch_count sheet.numbers.now) }
    ensures page { held page.new ≡ puts (held page.old) (link_clauses (sheet_of sheet.entry.numbers.now) t) }
    ensures moved { Moved page.old page.new (2 * latch_count sheet.entry.numbers.now) (4 * latch_count sheet.entry.numbers.now) }
{
    let nodes = sheet.width();
    for i in 0..sheet.latches() {
        put_latch(page, sheet, nodes, t, i);
    }
}

// The frames 1 to `k + 1`.
pub(crate) fn put_frames(page: &mut Page<'_>, sheet: LegalSheet<'_>, k: u32)
    requires bound { k ≤ 30 }
    requires room { Room page.old ((k + 1) * (1 + 3 * gate_count sheet.numbers.now)) ((k + 1) * (1 + 7 * gate_count sheet.numbers.now)) }
    ensures page { held page.new ≡ puts (held page.old) (stretch (frame_clauses (sheet_of sheet.entry.numbers.now)) 1 (k + 1)) }
    ensures moved { Moved page.old page.new ((k + 1) * (1 + 3 * gate_count sheet.entry.numbers.now)) ((k + 1) * (1 + 7 * gate_count sheet.entry.numbers.now)) }
{
    for t in 1..k + 2 {
        put_frame(page, sheet, t);
    }
}

// The links 1 to `k`.
pub(crate) fn put_links(page: &mut Page<'_>, sheet: LegalSheet<'_>, k: u32)
    requires bound { k ≤ 30 }
    requires room { Room page.old (k * (2 * latch_count sheet.numbers.now)) (k * (4 * latch_count sheet.numbers.now)) }
    ensures page { held page.new ≡ puts (held page.old) (stretch (link_clauses (sheet_of sheet.entry.numbers.now)) 1 k) }
    ensures moved { Moved page.old page.new (k * (2 * latch_count sheet.entry.numbers.now)) (k * (4 * latch_count sheet.entry.numbers.now)) }
{
    for t in 1..k + 1 {
        put_link(page, sheet, t);
    }
}

// The end of a path: `bad` holds in one of the frames 1 to `k + 1`.
pub(crate) fn put_bad(page: &mut Page<'_>, sheet: LegalSheet<'_>, k: u32)
    requires bound { k ≤ 30 }
    requires room { Room page.old 1 (k + 1) }
    ensures page { held page.new ≡ puts (held page.old) (bad_clauses (sheet_of sheet.entry.numbers.now) k) }
    ensures moved { Moved page.old page.new 1 (k + 1) }
{
    page.open_clause();
    for t in 1..k + 2 {
        page.push_literal(bad_in(sheet, t));
    }
}
