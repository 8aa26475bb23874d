// The start formula of a sheet: true exactly in the start states.
ghost use Rattle.std.specs.Prelude.{◌≡◌, ℕ, ◌*◌, ◌<◌, ◌⊎◌, length, count_by, is_some, IfSome, None, MatchOption};
ghost use Rattle.std.specs.List.{range_with_len};
ghost use Rattle.lists.specs.Counted.{counted};
ghost use Rattle.sheet.specs.Sheets.{latch_count, sheet_of, start_bit, Legal};
ghost use Rattle.sheet.specs.Trip.{Iff};
ghost use Rattle.formula.specs.Conjunction.{grown, short};
ghost use Rattle.formula.specs.Starting.{start_mark, join_starts, start_in, start_size, Starts, TrueAtStarts};
ghost use Rattle.formula.specs.Built.{simplified, write_start, size_of_start};

use crate::builder::Builder;
use crate::root::Root;
use sheet::legal::LegalSheet;
use sheet::literal::Literal;

// The literal that is true where a latch has its start bit, if it starts with one.
fn start_literal(sheet: LegalSheet<'_>, latch: u32) -> Option<Literal>
    requires { latch < latch_count sheet.numbers.now }
    ensures { result ≡ simplified (start_mark (sheet_of sheet.entry.numbers.now) latch ((sheet_of sheet.entry.numbers.now).start latch)) }
{
    let literal = Literal::from_number(2 * (sheet.first_latch() + latch));
    if sheet.start(latch)? {
        Some(literal)
    } else {
        Some(literal.opposite())
    }
}

fn count_start_bits(sheet: LegalSheet<'_>) -> usize
    ensures { result ≡ count_by (λ i. is_some (start_bit ((sheet_of sheet.entry.numbers.now).start i))) (range_with_len 0 (latch_count sheet.entry.numbers.now)) }
{
    (0..sheet.latches())
        .filter(|latch| sheet.start(*latch).is_some())
        .count()
}

// A gate for each start bit but the first.
fn count_gates(sheet: LegalSheet<'_>) -> u32
    ensures { result ≡ start_size (sheet_of sheet.entry.numbers.now) }
{
    count_start_bits(sheet).saturating_sub(1) as u32
}

fn join_starts(sheet: LegalSheet<'_>, list: &mut [u32]) -> Option<Root>
    ensures { MatchOption result (join_starts (sheet_of sheet.entry.numbers.now) (latch_count sheet.entry.numbers.now) 0 1 0 list.old ≡ short) (λ d. join_starts (sheet_of sheet.entry.numbers.now) (latch_count sheet.entry.numbers.now) 0 1 0 list.old ≡ grown d.literal.0 d.gates list.new) }
{
    let mut builder = Builder {
        width: sheet.width(),
        count: 0,
    };
    let mut literal = Literal::from_number(1);
    for latch in 0..sheet.latches() {
        if let Some(start) = start_literal(sheet, latch) {
            literal = builder.and(list, literal, start)?;
        }
    }
    Some(Root {
        literal,
        gates: builder.count,
    })
}

// How many gates the start formula has; 0 for a list that is not legal.
pub fn start_size(sheet: &[u32]) -> u32
    ensures counts_the_gates { result ≡ size_of_start (counted sheet.now) }
    ensures tells_the_room { Legal (counted sheet.now) → (places : ℕ) → Iff (start_in (sheet_of (counted sheet.now)) places ≡ short) (places < 2 * result) }
{
    LegalSheet::new(sheet).map_or(0, count_gates)
}

// Writes the gates of the start formula into `list`, with zeros behind them. None, and nothing written, for a list that is
// not legal or if there is no room.
pub fn start_formula(sheet: &[u32], list: &mut [u32]) -> Option<Root>
    ensures writes_the_start_formula { (result, list.new) ≡ write_start sheet.now list.old }
    ensures is_true_in_start_states_only { IfSome result (λ d. Starts (sheet_of (counted sheet.now)) list.new d.gates d.literal.0) }
    ensures is_true_in_the_machines_start_states { IfSome result (λ d. TrueAtStarts (sheet_of (counted sheet.now)) list.new d.gates d.literal.0) }
    ensures has_the_told_size { IfSome result (λ d. d.gates ≡ size_of_start (counted sheet.now)) }
    ensures refuses_illegal_or_short { Iff (result ≡ None) ((Legal (counted sheet.now) → ⊥) ⊎ (length (counted list.old) < 2 * size_of_start (counted sheet.now))) }
{
    let sheet = LegalSheet::new(sheet)?;
    let len = lists::counted_len(list.len());
    if len < 2 * count_gates(sheet) as usize {
        return None;
    }
    let list = &mut list[0..len];
    list.fill(0);
    join_starts(sheet, list)
}
