// A legal sheet's list, with its parts by name.
ghost use Rattle.std.specs.Prelude.{◌≡◌, is_some, MatchOption};
ghost use Rattle.lists.specs.Counted.{counted};
ghost use Rattle.sheet.specs.Render.{well_formed};
ghost use Rattle.sheet.specs.Sheets.{Legal, Legal-prop, sheet_of, start_bit, input_count, latch_count, gate_count, node_count, latch_node, gate_node, bad_of, next_of, left_of, right_of, gate_pairs};

use crate::literal::Literal;
use crate::write::is_legal;
use lists::{counted, item_or};

// The places of a list that count, where they lay out a sheet. Latches and gates are told by their number, from 0 on.
#[derive(Clone, Copy)]
pub struct LegalSheet<'a> {
    numbers: &'a [u32],
    pub ghost legal: { Legal numbers.now } by { Legal-prop numbers.now },
}

impl<'a> LegalSheet<'a> {
    // None for a list that is not legal.
    pub fn new(list: &'a [u32]) -> Option<LegalSheet<'a>>
        ensures is_the_test { is_some result ≡ well_formed (counted list.now) }
        ensures only_of_legal_lists { MatchOption result (¬ Legal (counted list.now)) (λ sheet. sheet.numbers.now ≡ counted list.now) }
    {
        if !is_legal(list) {
            return None;
        }
        Some(LegalSheet {
            numbers: counted(list),
        })
    }

    pub fn inputs(self) -> u32
        ensures { result ≡ input_count self.entry.numbers.now }
    {
        self.numbers[0]
    }

    pub fn latches(self) -> u32
        ensures { result ≡ latch_count self.entry.numbers.now }
    {
        self.numbers[1]
    }

    pub fn gates(self) -> u32
        ensures { result ≡ gate_count self.entry.numbers.now }
    {
        self.numbers[2]
    }

    // The node of the first latch.
    pub fn first_latch(self) -> u32
        ensures { result ≡ latch_node self.entry.numbers.now 0 }
    {
        1 + self.inputs()
    }

    // The node of the first gate.
    pub fn first_gate(self) -> u32
        ensures { result ≡ gate_node self.entry.numbers.now 0 }
    {
        self.first_latch() + self.latches()
    }

    // How many nodes there are.
    pub fn width(self) -> u32
        ensures { result ≡ node_count self.entry.numbers.now }
    {
        self.first_gate() + self.gates()
    }

    pub fn bad(self) -> Literal
        ensures { result.0 ≡ bad_of self.entry.numbers.now }
    {
        Literal::from_number(self.numbers[3])
    }

    // What a latch becomes.
    pub fn next(self, latch: u32) -> Literal
        ensures { result.0 ≡ next_of self.entry.numbers.now latch }
    {
        Literal::from_number(item_or(self.numbers, 4 + 2 * latch as usize, 0))
    }

    // The bit that a latch starts with. None if it starts with either.
    pub fn start(self, latch: u32) -> Option<bool>
        ensures { result ≡ start_bit ((sheet_of self.entry.numbers.now).start latch) }
    {
        match item_or(self.numbers, 5 + 2 * latch as usize, 0) {
            0 => Some(false),
            1 => Some(true),
            _ => None,
        }
    }

    // The left operand of a gate, and its right one.
    pub fn operands(self, gate: u32) -> (Literal, Literal)
        ensures { (result.0.0 ≡ left_of self.entry.numbers.now gate) × (result.1.0 ≡ right_of self.entry.numbers.now gate) }
    {
        let left = 4 + 2 * (self.latches() as usize + gate as usize);
        (
            Literal::from_number(item_or(self.numbers, left, 0)),
            Literal::from_number(item_or(self.numbers, left + 1, 0)),
        )
    }

    // The operands of every gate, in pairs.
    pub fn gate_pairs(self) -> &'a [u32]
        ensures { result.now ≡ gate_pairs self.entry.numbers.now }
    {
        let first = 4 + 2 * self.latches() as usize;
        &self.numbers[first..first + 2 * self.gates() as usize]
    }
}
