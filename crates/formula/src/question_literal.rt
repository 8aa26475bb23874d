// A literal of a question: twice a variable, plus 1 if negated. In lists it stands as its number.
ghost use Rattle.std.specs.Prelude.{◌≡◌, ◌+◌, ◌-◌, ◌/◌, ◌%◌, if◌then◌else◌, nat_eq};

#[derive(Clone, Copy, PartialEq, Eq)]
pub struct QuestionLiteral(u32);

impl QuestionLiteral {
    pub fn from_number(number: u32) -> QuestionLiteral
        ensures has_the_number { result.0 ≡ number }
    {
        QuestionLiteral(number)
    }

    pub fn number(self) -> u32
        ensures is_the_number { result ≡ self.0 }
    {
        self.0
    }

    pub fn variable(self) -> u32
        ensures is_half_the_number { result ≡ self.0 / 2 }
    {
        self.number() / 2
    }

    // The other literal of the variable.
    pub fn opposite(self) -> QuestionLiteral
        ensures turns_the_sign { result.0 ≡ (if nat_eq (self.0 % 2) 1 then self.0 - 1 else self.0 + 1) }
        ensures same_variable_other_sign { (result.0 / 2 ≡ self.0 / 2) × (result.0 % 2 ≡ 1 - self.0 % 2) }
    {
        if self.0 % 2 == 1 {
            QuestionLiteral(self.0 - 1)
        } else {
            QuestionLiteral(self.0 + 1)
        }
    }
}
