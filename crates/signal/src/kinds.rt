// The kinds of signal.
ghost use Rattle.signal.specs.Kinds.{bit_ops, may_bit, tri_ops, may_tri};
ghost use Rattle.std.proofs.Common.{rules};

use crate::Signal;

impl Signal for bool {
    ghost lanes = { 1 };

    ghost may = { may_bit };

    ghost ops = { bit_ops };

    ghost some_lane = { Prim.search rules };

    ghost sound = { Prim.search rules };

    ghost small = { Prim.search rules };

    fn bit(b: bool) -> bool {
        b
    }

    fn from_number(n: u32) -> bool {
        n != 0
    }

    fn not(self) -> bool {
        !self
    }

    fn and(self, other: bool) -> bool {
        self & other
    }
}

// A bit that may be unset: then it may be 0 and may be 1.
#[derive(Clone, Copy, PartialEq)]
pub enum Tri {
    Zero,
    One,
    Unset,
}

impl Signal for Tri {
    ghost lanes = { 1 };

    ghost may = { may_tri };

    ghost ops = { tri_ops };

    ghost some_lane = { Prim.search rules };

    ghost sound = { Prim.search rules };

    ghost small = { Prim.search rules };

    fn bit(b: bool) -> Tri {
        if b { Tri::One } else { Tri::Zero }
    }

    fn from_number(n: u32) -> Tri {
        match n {
            0 => Tri::Zero,
            1 => Tri::One,
            _ => Tri::Unset,
        }
    }

    fn not(self) -> Tri {
        match self {
            Tri::Zero => Tri::One,
            Tri::One => Tri::Zero,
            Tri::Unset => Tri::Unset,
        }
    }

    fn and(self, other: Tri) -> Tri {
        match (self, other) {
            (Tri::Zero, _) | (_, Tri::Zero) => Tri::Zero,
            (Tri::One, Tri::One) => Tri::One,
            _ => Tri::Unset,
        }
    }

    fn or(self, other: Tri) -> Tri {
        match (self, other) {
            (Tri::One, _) | (_, Tri::One) => Tri::One,
            (Tri::Zero, Tri::Zero) => Tri::Zero,
            _ => Tri::Unset,
        }
    }
}
