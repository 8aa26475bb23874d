// One pass over the literals of two clauses, in order: each is read once, and what is left of the two without the pivot is
// written into the places that are free.
ghost use Rattle.std.specs.Prelude.{◌≡◌, true, not, [], ◌∷◌, length, is_some};
ghost use Rattle.std.proofs.lemmas.List.Edits.{sets};
ghost use Rattle.answer.specs.Joint.{joint};
ghost use Rattle.answer.specs.Passes.{Taken, joined};

// What a pass over two clauses has found so far: how many literals it has written, the variable of the last of them, and
// whether the pivot came plain in the first clause and negated in the second.
#[derive(Clone, Copy)]
pub(crate) struct Tally {
    pub pivot: u32,
    pub count: usize,
    pub last: u32,
    pub plain: bool,
    pub negated: bool,
}

impl Tally {
    // Takes a literal of the first clause, the second or both: writes it unless it is the pivot's. `None` at a clash, and
    // where there is no room.
    fn keep(self, free: &mut [u32], literal: u32, in_first: bool, in_second: bool) -> Option<Tally>
        ensures { Taken self in_first in_second free.old free.new (literal ∷ []) result }
    {
        let variable = literal / 2;
        if variable == self.pivot {
            return if literal % 2 == 0 {
                Some(Tally {
                    plain: self.plain || in_first,
                    ..self
                })
            } else {
                Some(Tally {
                    negated: self.negated || in_second,
                    ..self
                })
            };
        }
        if variable == self.last || self.count >= free.len() {
            return None;
        }
        free[self.count] = literal;
        Some(Tally {
            count: self.count + 1,
            last: variable,
            ..self
        })
    }

    // Takes the literals that are left of the first clause, or of the second.
    fn append(self, free: &mut [u32], rest: &[u32], in_first: bool) -> Option<Tally>
        ensures { Taken self in_first (not in_first) free.old free.new rest.now result }
    {
        let mut tally = self;
        for literal in rest {
            tally = tally.keep(free, *literal, in_first, !in_first)?;
        }
        Some(tally)
    }
}

// Writes the resolvent of two clauses and answers how many literals it has; `None` where there is none, or no room.
pub(crate) fn join(
    mut first: &[u32],
    mut second: &[u32],
    pivot: u32,
    free: &mut [u32],
) -> Option<usize>
    ensures says_how_many { result ≡ joined (length free.old) 0 first.now second.now pivot }
    ensures writes { is_some result ≡ true → free.new ≡ sets free.old 0 (joint first.now second.now pivot) }
{
    let mut tally = Tally {
        pivot,
        count: 0,
        last: pivot,
        plain: false,
        negated: false,
    };
    while let ([x, xs @ ..], [y, ys @ ..]) = (first, second) {
        if x < y {
            tally = tally.keep(free, *x, true, false)?;
            first = xs;
        } else {
            // Which literal is the lower one often can't be foreseen, so the loop branches on it once. Where both clauses have
            // the literal, the first goes on too, by a count of places: a second branch would be as hard to foresee.
            let both = x == y;
            tally = tally.keep(free, *y, both, true)?;
            first = &first[usize::from(both)..];
            second = ys;
        }
    }
    tally = tally.append(free, first, true)?;
    tally = tally.append(free, second, false)?;
    (tally.plain && tally.negated).then_some(tally.count)
}
