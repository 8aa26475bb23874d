// Clauses under a whole assignment, and under a part of one.
ghost use Rattle.std.specs.Prelude.{◌≡◌, ℕ, Bool, true, false, not, Decides};
ghost use Rattle.std.specs.List.{AllByRecursion};
ghost use Rattle.lists.specs.Counted.{counted};
ghost use Rattle.signal.specs.Circuit.{literal_of, clause_of};
ghost use Rattle.signal.specs.Kinds.{tri_ops, may_tri};
ghost use Rattle.signal.specs.Truth.{holds, Satisfied, bits_of, Completes, False};
ghost use Rattle.signal.specs.declared.kinds.Tri.TheVariants.{Zero};

use crate::clause_value;
use crate::kinds::Tri;

// Whether some literal of the clause is true under the numbers, each read as a plain bit.
pub fn satisfies_clause(numbers: &[u32], literals: &[u32]) -> bool
    ensures is_the_truth { result ≡ holds (bits_of (counted numbers.now)) (counted literals.now) }
    ensures when_a_literal_is_true { Decides result (Satisfied (bits_of (counted numbers.now)) (counted literals.now)) }
{
    clause_value::<bool>(numbers, literals)
}

// Whether the clause is false already, whatever the variables that the numbers leave unset will be.
pub fn falsifies_clause(numbers: &[u32], literals: &[u32]) -> bool
    ensures is_only_zero { result ≡ not (may_tri (clause_of tri_ops (counted numbers.now) (counted literals.now)) 0 true) }
    ensures when_each_literal_is_zero { Decides result (AllByRecursion (λ l. literal_of tri_ops (counted numbers.now) l ≡ Zero) (counted literals.now)) }
    ensures when_each_literal_is_false { Decides result (AllByRecursion (False (counted numbers.now)) (counted literals.now)) }
    ensures when_no_completion_satisfies { Decides result ((α : ℕ → Bool) → Completes (counted numbers.now) α → holds α (counted literals.now) ≡ false) }
{
    clause_value::<Tri>(numbers, literals) == Tri::Zero
}
