// Reading off a check that has ended.
ghost use Rattle.std.specs.Prelude.{◌≡◌, Some};
ghost use Rattle.checker.specs.Reports.{read_off, verdict_word};

use crate::lent::used_part;
use crate::runs::run_off;
use crate::{End, Ended, Lack};
use sheet::fault::Fault;
use std::fmt;

// How a check ended: after a run, how many steps it has; after want of room, in which list.
#[derive(Clone, Copy, PartialEq, Eq)]
pub enum Verdict {
    Safe,
    Run { steps: u32 },
    Undecided,
    Spent,
    Short(Lack),
}

impl fmt::Display for Verdict {
    ghost output = { λ verdict. Some (verdict_word verdict) };

    fn fmt<W: fmt::Write>(&self, f: &mut fmt::Formatter<W>) -> fmt::Result {
        match self {
            Verdict::Safe => write!(f, "safe"),
            Verdict::Run { .. } => write!(f, "run"),
            Verdict::Undecided => write!(f, "undecided"),
            Verdict::Spent => write!(f, "spent"),
            Verdict::Short(_) => write!(f, "short"),
        }
    }
}

// The verdict, the bound, and how many answers were shown or taken.
#[derive(Clone, Copy, PartialEq, Eq)]
pub struct Report {
    pub verdict: Verdict,
    pub bound: u32,
    pub turns: u32,
}

impl Ended {
    // How the check ended. After a run, its frames are written into `run`, the latches of each before its inputs, with zeros
    // behind them; `assignment` is to be the one that was shown last. Refused, with nothing written, if the run does not fit
    // (51).
    pub fn read_off(
        &self,
        sheet: &[u32],
        assignment: &[u32],
        run: &mut [u32],
    ) -> Result<Report, Fault>
        ensures reads_off_by_the_rules { (result, run.new) ≡ read_off sheet.now self.now assignment.now run.old }
    {
        let verdict = match self.end {
            End::Safe => Verdict::Safe,
            End::Run { last, variables } => {
                let assignment = used_part(assignment, variables as usize);
                let steps = run_off(sheet, assignment, last, run)?;
                Verdict::Run { steps }
            }
            End::Undecided => Verdict::Undecided,
            End::Spent => Verdict::Spent,
            End::Short(lack) => Verdict::Short(lack),
        };
        Ok(Report {
            verdict,
            bound: self.bound,
            turns: self.turns,
        })
    }
}
