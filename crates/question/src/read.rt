// Reading a question: its counts, and its clauses by their numbers. What a list is too short to say counts as 0.
ghost use Rattle.std.specs.Prelude.{◌≡◌, slice_index};
ghost use Rattle.lists.specs.Counted.{counted};
ghost use Rattle.question.specs.Questions.{variable_count, clause_count, first_count, clause_of};

use lists::{counted, item_or};

// The number at a place of a list, and 0 past its end. Every place counts: a lent list is cut to its first 2^28 places before.
pub fn number_at(list: &[u32], place: usize) -> u32
    ensures { result ≡ slice_index list.now place }
{
    item_or(list, place, 0)
}

pub fn variable_count(question: &[u32]) -> u32
    ensures is_the_first_number { result ≡ variable_count (counted question.now) }
{
    number_at(counted(question), 0)
}

pub fn clause_count(question: &[u32]) -> u32
    ensures is_the_second_number { result ≡ clause_count (counted question.now) }
{
    number_at(counted(question), 1)
}

// How many clauses are of the first part.
pub fn first_count(question: &[u32]) -> u32
    ensures is_the_third_number { result ≡ first_count (counted question.now) }
{
    number_at(counted(question), 2)
}

// The literals of clause `k`, where they lie. Places past the list's end, or in descending order, cut the clause short.
pub fn clause(question: &[u32], k: u32) -> &[u32]
    ensures is_the_clause { result.now ≡ clause_of (counted question.now) k }
{
    let question = counted(question);
    let start = number_at(question, 3 + k as usize) as usize;
    let end = number_at(question, 4 + k as usize) as usize;
    let to = end.min(question.len());
    let from = start.min(to);
    &question[from..to]
}
