// The lines of a refutation: the clauses of the question, and behind them the clause of each step, in the working list.
ghost use Rattle.std.specs.Prelude.{◌≡◌};
ghost use Rattle.lists.specs.Counted.{counted};
ghost use Rattle.question.specs.Questions.{span, clause_count};
ghost use Rattle.answer.specs.Lines.{line_of};

use lists::counted;
use question::read::number_at;

// How many clauses a question has.
pub(crate) fn clause_count(question: &[u32]) -> u32
    ensures { result ≡ clause_count question.now }
{
    number_at(question, 1)
}

// What lies between the place that stands at `i` and the one that stands after it.
pub(crate) fn part(list: &[u32], i: usize) -> &[u32]
    ensures { result.now ≡ span list.now i }
{
    let Some([from, to, ..]) = list.get(i..) else {
        return &[];
    };
    let to = (*to as usize).min(list.len());
    let from = (*from as usize).min(to);
    &list[from..to]
}

// The clause of a line where every place counts.
pub(crate) fn clause_at<'a>(question: &'a [u32], work: &'a [u32], line: u32) -> &'a [u32]
    ensures { result.now ≡ line_of question.now (span work.now) line }
{
    let given = clause_count(question);
    if line < given {
        part(question, 3 + line as usize)
    } else {
        part(work, (line - given) as usize)
    }
}

// The clause of a line: a part of the question or, past its clauses, of the working list. A line that is not there is empty.
pub fn line_clause<'a>(question: &'a [u32], work: &'a [u32], line: u32) -> &'a [u32]
    ensures is_the_clause_of_the_line { result.now ≡ line_of (counted question.now) (span (counted work.now)) line }
{
    clause_at(counted(question), counted(work), line)
}
