// AND and OR of formulas. Their gates lie in a lent list as pairs left, right, and are numbered on from the sheet's nodes.
ghost use Rattle.std.specs.Prelude.{◌≡◌, ◌&&◌, ◌||◌};
ghost use Rattle.formula.specs.Conjunction.{simple, new_gate, conjoin, disjoin};
ghost use Rattle.formula.specs.Built.{simplified, built, JoinsBy};

use sheet::literal::Literal;

// How many nodes the sheet has, and how many gates the list.
#[derive(Clone, Copy)]
pub struct Builder {
    pub width: u32,
    pub count: u32,
}

// The AND of two literals, where it needs no gate.
fn simplify(a: Literal, b: Literal) -> Option<Literal>
    ensures { result ≡ simplified (simple a.0 b.0) }
{
    let zero = Literal::from_number(0);
    let one = Literal::from_number(1);
    if a == b {
        Some(a)
    } else if a.node() == b.node() || a == zero || b == zero {
        Some(zero)
    } else if a == one {
        Some(b)
    } else if b == one {
        Some(a)
    } else {
        None
    }
}

impl Builder {
    fn add_gate(&mut self, list: &mut [u32], left: u32, right: u32) -> Option<Literal>
        ensures { (result, self.new, list.new) ≡ built self.old list.old (new_gate self.old.width self.old.count list.old left right) }
    {
        let at = 2 * self.count as usize;
        let number = self.width.checked_add(self.count)?.checked_mul(2)?;
        if lists::counted_len(list.len()) < at + 2 {
            return None;
        }
        list[at] = left;
        list[at + 1] = right;
        self.count += 1;
        Some(Literal::from_number(number))
    }

    // The AND of two formulas. None, and nothing changed, if it needs a gate and there is no room for one.
    pub fn and(&mut self, list: &mut [u32], a: Literal, b: Literal) -> Option<Literal>
        ensures conjoins { (result, self.new, list.new) ≡ built self.old list.old (conjoin self.old.width self.old.count list.old a.0 b.0) }
        ensures is_true_where_both_are { JoinsBy ◌&&◌ self.old list.old a b self.new list.new result }
    {
        if let Some(literal) = simplify(a, b) {
            return Some(literal);
        }
        let (a, b) = (a.number(), b.number());
        self.add_gate(list, a.max(b), a.min(b))
    }

    // The OR, as the negated AND of the negations.
    pub fn or(&mut self, list: &mut [u32], a: Literal, b: Literal) -> Option<Literal>
        ensures disjoins { (result, self.new, list.new) ≡ built self.old list.old (disjoin self.old.width self.old.count list.old a.0 b.0) }
        ensures is_true_where_one_is { JoinsBy ◌||◌ self.old list.old a b self.new list.new result }
    {
        let both = self.and(list, a.opposite(), b.opposite())?;
        Some(both.opposite())
    }
}
