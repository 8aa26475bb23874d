// Literals, clauses and AND gates, evaluated by the same code at every kind of signal. Of each list that is lent the first
// 2^28 places count.
#![tactic(auto)]

ghost use Rattle.std.specs.Prelude.{◌≡◌, ℕ, ◌+◌, ◌/◌, ◌<◌, ◌≤◌, Bool, true, List, ◌++◌, length, slice_index, slice_index_or};
ghost use Rattle.lists.specs.Counted.{counted, uncounted};
ghost use Rattle.signal.specs.Circuit.{Ops, disjunction, phased_of, literal_of, clause_of, node_of, gates_of};
ghost use Rattle.signal.specs.Covers.{Agrees, Covers, CoversTo};
ghost use Rattle.signal.specs.Exact.{literal_set, clause_set};
ghost use Rattle.signal.specs.Kinds.{bit_ops};
ghost use Rattle.signal.specs.Meaning.{SetsAre};
ghost use Rattle.signal.specs.Room.{Small};
ghost use Rattle.signal.specs.Settled.{Ordered, Settled, Gated};
ghost use Rattle.signal.specs.Sound.{Sound};
ghost use Rattle.signal.specs.Truth.{lit, holds};

use lists::{counted, counted_len, front, item_or};

pub mod clauses;
pub mod kinds;

// A kind of signal. A value has one or more lanes, and in each lane a set of bits that it may be.
pub trait Signal: Copy {
    // How many lanes a value has.
    ghost lanes: { ℕ };

    // Lane i of a value may be the bit b.
    ghost may: { Self → ℕ → Bool → Bool };

    ghost ops: { Ops Self };

    fn bit(b: bool) -> Self
        ensures { result ≡ ops.known b };

    fn from_number(n: u32) -> Self
        ensures { result ≡ ops.reading n };

    fn not(self) -> Self
        ensures { result ≡ ops.negation self };

    fn and(self, other: Self) -> Self
        ensures { result ≡ ops.conjunction self other };

    fn or(self, other: Self) -> Self
        ensures { result ≡ disjunction ops self other }
    {
        self.not().and(other.not()).not()
    }

    // Without a lane the next law would say nothing.
    ghost some_lane: { 0 < lanes };

    // In each lane an operation gives exactly the bits that it should.
    ghost sound: { (i : ℕ) → i < lanes → Sound ops (λ x. may x i) };

    // So that an array of a few hundred values finds room in memory.
    ghost small: { Small Self.row };
}

// The value x of a variable, as a literal of it sees it.
fn phased<S: Signal>(x: S, literal: u32) -> S
    ensures { result ≡ phased_of S.ops literal x }
{
    if literal % 2 == 0 { x } else { x.not() }
}

// The value of a literal where every number counts.
fn literal_of<S: Signal>(numbers: &[u32], literal: u32) -> S
    ensures { result ≡ literal_of S.ops numbers.now literal }
{
    let number = item_or(numbers, (literal / 2) as usize, 0);
    phased(S::from_number(number), literal)
}

// The OR of the literals where every number and every literal counts.
fn clause_of<S: Signal>(numbers: &[u32], literals: &[u32]) -> S
    ensures { result ≡ clause_of S.ops numbers.now literals.now }
{
    let mut any = S::bit(false);
    for literal in literals {
        any = any.or(literal_of(numbers, *literal));
    }
    any
}

// The value of a literal of a node.
fn node_of<S: Signal>(values: &[S], literal: u32) -> S
    ensures { result ≡ node_of S.ops values.now literal }
{
    phased(
        item_or(values, (literal / 2) as usize, S::bit(false)),
        literal,
    )
}

// The AND gates where every pair and every value counts.
fn run_gates<S: Signal>(pairs: &[u32], first: usize, values: &mut [S])
    ensures { values.new ≡ gates_of S.ops pairs.now first values.old }
{
    let (gates, _) = pairs.as_chunks::<2>();
    let room = values.len().saturating_sub(first);
    for (i, [left, right]) in front(gates, room).iter().enumerate() {
        values[first + i] = node_of(values, *left).and(node_of(values, *right));
    }
}

// The value of a literal: that of its variable, whose number is read as a signal, and negated if the literal is odd.
// A variable that has no number counts as 0.
pub fn literal_value<S: Signal>(numbers: &[u32], literal: u32) -> S
    ensures is_the_literal { result ≡ literal_of S.ops (counted numbers.now) literal }
    ensures may_be_exactly_its_bits { (i : ℕ) (b : Bool) → i < S.lanes → S.may result i b ≡ literal_set (λ k. S.may (S.ops.reading (slice_index (counted numbers.now) k)) i) literal b }
    ensures covers_each_assignment { (i : ℕ) (α : ℕ → Bool) → i < S.lanes → Agrees S.ops S.may i (counted numbers.now) α → S.may result i (lit α literal) ≡ true }
{
    literal_of(counted(numbers), literal)
}

// The value of a clause: the OR of its literals.
pub fn clause_value<S: Signal>(numbers: &[u32], literals: &[u32]) -> S
    ensures is_the_clause { result ≡ clause_of S.ops (counted numbers.now) (counted literals.now) }
    ensures may_be_exactly_the_ors { (i : ℕ) (b : Bool) → i < S.lanes → S.may result i b ≡ clause_set (λ k. S.may (S.ops.reading (slice_index (counted numbers.now) k)) i) (counted literals.now) b }
    ensures each_set_is_as_named { SetsAre }
    ensures covers_each_assignment { (i : ℕ) (α : ℕ → Bool) → i < S.lanes → Agrees S.ops S.may i (counted numbers.now) α → S.may result i (holds α (counted literals.now)) ≡ true }
{
    clause_of(counted(numbers), counted(literals))
}

// The values of AND gates, given as pairs of literals of nodes: that of the first goes to values[first], that of the next
// to values[first + 1], and so on, as far as there are places. A node that is not there counts as 0, and a last literal
// without a partner is no gate.
pub fn gate_values<S: Signal>(pairs: &[u32], first: usize, values: &mut [S])
    ensures runs_the_gates { values.new ≡ gates_of S.ops (counted pairs.now) first (counted values.old) ++ uncounted values.old }
    ensures keeps_lower_nodes { (k : ℕ) (d : S) → k < first → slice_index_or values.new k d ≡ slice_index_or values.old k d }
    ensures settles_each_gate { Ordered (counted pairs.now) first → first + length (counted pairs.now) / 2 ≤ length (counted values.old) → Settled S.ops (counted values.new) (counted pairs.now) first }
    ensures covers_the_gates_of_bits { (i : ℕ) (bits : List Bool) → i < S.lanes → Covers S.may i (counted values.old) bits → Covers S.may i (counted values.new) (gates_of bit_ops (counted pairs.now) first bits) }
    ensures covers_each_assignment { (i : ℕ) (α : ℕ → Bool) → i < S.lanes → Ordered (counted pairs.now) first → Gated α (counted pairs.now) first → CoversTo S.may i first (counted values.old) α → CoversTo S.may i (first + length (counted pairs.now) / 2) (counted values.new) α }
{
    let room = counted_len(values.len());
    run_gates(counted(pairs), first, &mut values[0..room]);
}
