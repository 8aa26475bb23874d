// The rows of a working list, of as many numbers as there are variables: the values of the variables, 2 for one that is not
// set; the lines of a stack of records; the marks of the variables in the clauses of those lines, a row for each record; and
// the marks of the line that ends the branch. A record is that of a 0 branch whose 1 branch is under way.
ghost use Rattle.std.specs.Prelude.{◌≡◌, ℕ, ◌+◌, ◌*◌, ◌^◌, ◌<◌, ◌≤◌, cond, length, if◌then◌else◌, nat_eq, slice_index};
ghost use Rattle.question.specs.Questions.{clause_of};
ghost use Rattle.producer.specs.Machine.{mark, Row, Turned, Unset, Joined};

use question::read::clause;

// Where the row `i` begins.
pub(crate) fn row(v: u32, i: usize) -> usize
    requires { i ≤ v + 2 }
    ensures { result ≡ i * v }
{
    i * v as usize
}

// Marks the variables of a clause.
fn mark_variables(literals: &[u32], marks: &mut [u32])
    ensures { (x : ℕ) → x < length marks.old → slice_index marks.new x ≡ mark x literals.now }
{
    marks.fill(0);
    for x in literals {
        let variable = (*x / 2) as usize;
        if variable < marks.len() {
            marks[variable] = 1;
        }
    }
}

// Joins the marks of another clause to these, without the pivot.
fn join_rows(marks: &mut [u32], others: &[u32], pivot: usize)
    requires same { length others.now ≡ length marks.old }
    requires among { pivot < length marks.old }
    ensures { (x : ℕ) → x < length marks.old → slice_index marks.new x ≡ (if nat_eq x pivot then 0 else (if nat_eq (slice_index others.now x) 0 then slice_index marks.old x else 1)) }
{
    // Each mark is written, also one that stays as it is: a loop without a branch goes over several marks at once.
    for (x, mark) in marks.iter_mut().enumerate() {
        *mark = if others[x] == 0 { *mark } else { 1 };
    }
    marks[pivot] = 0;
}

// Marks the variables of the clause that ends the branch.
pub(crate) fn mark_line(question: &[u32], work: &mut [u32], v: u32, k: u32)
    requires room { (v + 4) * (v + 4) ≤ length work.old }
    requires size { length question.now ≤ 2 ^ 28 }
    ensures marked { Row v work.new ((v + 2) * v) (clause_of question.now k) }
    ensures kept { (i : ℕ) → i < (v + 2) * v → slice_index work.new i ≡ slice_index work.old i }
{
    let from = row(v, v as usize + 2);
    mark_variables(clause(question, k), &mut work[from..from + v as usize]);
}

// Joins the marks of the record of the variable `d` to those of the line that ends the branch.
fn join_line(work: &mut [u32], v: u32, d: u32)
    requires room { (v + 4) * (v + 4) ≤ length work.old }
    requires among { d < v }
    ensures joined { Joined v d work.old work.new }
    ensures kept { (i : ℕ) → i < (v + 2) * v → slice_index work.new i ≡ slice_index work.old i }
{
    let n = v as usize;
    let at = d as usize;
    let from = row(v, at + 2);
    let (stack, marks) = work.split_at_mut(row(v, n + 2));
    join_rows(&mut marks[..n], &stack[from..from + n], at);
}

// Puts the 0 branch of the variable `d`, which ended at the line `k`, on the stack, and sets the variable to 1.
pub(crate) fn push(work: &mut [u32], v: u32, d: u32, k: u32)
    requires room { (v + 4) * (v + 4) ≤ length work.old }
    requires among { d < v }
    ensures { Turned v d k work.old work.new }
{
    let n = v as usize;
    let at = d as usize;
    let from = row(v, n + 2);
    work.copy_within(from..from + n, row(v, at + 2));
    work[at] = 1;
    work[n + at] = k;
}

// Takes the record of the variable `d` off the stack: joins its clause to that of the line that ends the branch, and answers
// its line. The variable is not set any more.
pub(crate) fn pop(work: &mut [u32], v: u32, d: u32) -> u32
    requires room { (v + 4) * (v + 4) ≤ length work.old }
    requires among { d < v }
    ensures line { result ≡ slice_index work.old (v + d) }
    ensures joined { Joined v d work.old work.new }
    ensures unset { Unset v d work.old work.new }
{
    let line = work[v as usize + d as usize];
    join_line(work, v, d);
    work[d as usize] = 2;
    line
}
