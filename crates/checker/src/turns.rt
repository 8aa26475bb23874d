// What an answer that was accepted leads to.
ghost use Rattle.std.specs.Prelude.{◌≡◌};
ghost use Rattle.checker.specs.declared.End.TheVariants.{Short as TooShort};
ghost use Rattle.checker.specs.Lent.{held, SameLists};
ghost use Rattle.checker.specs.Turns.{next_bound, told, path_asked, inclusion_asked, lack_of, drawn, grown_by, deepened, turned, moved_by};

use crate::lent::{Lists, used_part, width};
use crate::policy::next_bound;
use crate::{Answer, Asked, End, Ended, Kind, Lack, Moved, Region};
use formula::builder::Builder;
use formula::root::Root;
use interpolant::draw::{Short, interpolate};
use question::build::{inclusion_question, path_question};
use question::read::variable_count;
use sheet::literal::Literal;

// Which of a check's lists a drawing had no room in.
impl From<Short> for Lack {
    ghost from_gives = { λ short lack. lack ≡ lack_of short };

    fn from(short: Short) -> Lack {
        match short {
            Short::LineValues => Lack::LineValues,
            Short::Formula => Lack::Formula,
        }
    }
}

impl From<Short> for End {
    ghost from_gives = { λ short end. end ≡ TooShort (lack_of short) };

    fn from(short: Short) -> End {
        End::Short(short.into())
    }
}

impl Asked {
    // Asks the path question of a region at a bound. If it does not fit, the bound and the region stay.
    fn ask_path(
        &mut self,
        bound: u32,
        region: Region,
        sheet: &[u32],
        lists: &mut Lists<'_>,
    ) -> Result<(), End>
        ensures asks { told result self.new (held lists.new) ≡ path_asked sheet.now self.old bound region (held lists.old) }
        ensures same_lists { SameLists lists.old lists.new }
    {
        let Region { literal, gates, .. } = region;
        let formula = &mut *lists.formula;
        let question = &mut *lists.question;
        let posed = path_question(sheet, formula, gates, literal, bound, question);
        self.size = posed.ok_or(End::Short(Lack::Question))?;
        self.kind = Kind::Path;
        self.bound = bound;
        self.region = region;
        Ok(())
    }

    // Asks whether a state in what was drawn lies outside R.
    fn ask_inclusion(
        &mut self,
        drawn: Root,
        sheet: &[u32],
        lists: &mut Lists<'_>,
    ) -> Result<(), End>
        ensures asks { told result self.new (held lists.new) ≡ inclusion_asked sheet.now self.old drawn (held lists.old) }
        ensures same_lists { SameLists lists.old lists.new }
    {
        let (inside, outside) = (drawn.literal, self.region.literal);
        let formula = &mut *lists.formula;
        let question = &mut *lists.question;
        let posed = inclusion_question(sheet, formula, drawn.gates, inside, outside, question);
        self.size = posed.ok_or(End::Short(Lack::Question))?;
        self.kind = Kind::Inclusion(drawn.literal);
        self.region.gates = drawn.gates;
        Ok(())
    }

    // Draws the interpolant of a refutation of the path question, and asks whether it holds more than R.
    fn draw(&mut self, refutation: &[u32], sheet: &[u32], lists: &mut Lists<'_>) -> Result<(), End>
        ensures asks { told result self.new (held lists.new) ≡ drawn sheet.now self.old refutation.now (held lists.old) }
        ensures same_lists { SameLists lists.old lists.new }
    {
        let question = &mut *lists.question;
        let asked = used_part(question, self.size);
        let formula = &mut *lists.formula;
        let values = &mut *lists.values;
        let drawn = interpolate(sheet, asked, refutation, formula, self.region.gates, values)?;
        self.ask_inclusion(drawn, sheet, lists)
    }

    // R becomes R OR P, and the path question is asked of it.
    fn grow(&mut self, drawn: Literal, sheet: &[u32], lists: &mut Lists<'_>) -> Result<(), End>
        ensures asks { told result self.new (held lists.new) ≡ grown_by sheet.now self.old drawn (held lists.old) }
        ensures same_lists { SameLists lists.old lists.new }
    {
        let mut builder = Builder {
            width: width(sheet),
            count: self.region.gates,
        };
        let formula = &mut *lists.formula;
        let Some(literal) = builder.or(formula, self.region.literal, drawn) else {
            return Err(End::Short(Lack::Formula));
        };
        let region = Region {
            literal,
            gates: builder.count,
            grown: true,
        };
        self.ask_path(self.bound, region, sheet, lists)
    }

    // Raises the bound, with R and the formula list as they were opened.
    fn deepen(&mut self, sheet: &[u32], lists: &mut Lists<'_>) -> Result<(), End>
        ensures asks { told result self.new (held lists.new) ≡ deepened sheet.now self.old (held lists.old) }
        ensures same_lists { SameLists lists.old lists.new }
    {
        lists.restore(self.opening.gates);
        let bound = next_bound(self.bound, self.limits.bound);
        self.ask_path(bound, self.opening, sheet, lists)
    }

    // One turn, in place. An `Err` is the end of the check.
    fn turn(
        &mut self,
        answer: Answer,
        refutation: &[u32],
        sheet: &[u32],
        lists: &mut Lists<'_>,
    ) -> Result<(), End>
        ensures turns { told result self.new (held lists.new) ≡ turned answer sheet.now self.old refutation.now (held lists.old) }
        ensures same_lists { SameLists lists.old lists.new }
    {
        self.turns = self.turns.saturating_add(1);
        let question = &mut *lists.question;
        let variables = variable_count(question);
        let is_spent = self.turns >= self.limits.turns;
        match (self.kind, answer) {
            (Kind::Start, Answer::Assignment) => Err(End::Run { last: 0, variables }),
            (Kind::Path, Answer::Assignment) if !self.region.grown => {
                let last = self.bound.saturating_add(1);
                Err(End::Run { last, variables })
            }
            (Kind::Path, Answer::Assignment) if self.bound == self.limits.bound => {
                Err(End::Undecided)
            }
            (Kind::Inclusion(_), Answer::Refutation) => Err(End::Safe),
            _ if is_spent => Err(End::Spent),
            (Kind::Start, Answer::Refutation) => {
                self.ask_path(self.bound, self.region, sheet, lists)
            }
            (Kind::Path, Answer::Refutation) => self.draw(refutation, sheet, lists),
            (Kind::Path, Answer::Assignment) => self.deepen(sheet, lists),
            (Kind::Inclusion(drawn), Answer::Assignment) => self.grow(drawn, sheet, lists),
        }
    }

    // The check after one turn.
    pub(crate) fn moved(
        mut self,
        answer: Answer,
        refutation: &[u32],
        sheet: &[u32],
        lists: &mut Lists<'_>,
    ) -> Moved
        ensures moves { (result, held lists.new) ≡ moved_by answer sheet.now self refutation.now (held lists.old) }
        ensures same_lists { SameLists lists.old lists.new }
    {
        match self.turn(answer, refutation, sheet, lists) {
            Ok(()) => Moved::Asked(self),
            Err(end) => {
                lists.leave(end);
                Moved::Ended(Ended {
                    end,
                    bound: self.bound,
                    turns: self.turns,
                })
            }
        }
    }
}
