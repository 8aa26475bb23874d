// A literal of a sheet: twice a node, plus 1 if negated. In lists it stands as its number.
ghost use Rattle.std.specs.Prelude.{◌≡◌, ◌+◌, ◌-◌, ◌/◌, ◌%◌, if◌then◌else◌, ◌==◌, nat_eq};

#[derive(Clone, Copy, PartialEq, Eq)]
pub struct Literal(u32);

impl Literal {
    pub fn from_number(number: u32) -> Literal
        ensures { result.0 ≡ number }
    {
        Literal(number)
    }

    pub fn number(self) -> u32
        ensures { result ≡ self.0 }
    {
        self.0
    }

    pub fn node(self) -> u32
        ensures { result ≡ self.0 / 2 }
    {
        self.0 / 2
    }

    pub fn is_negated(self) -> bool
        ensures { result ≡ (self.0 % 2 == 1) }
    {
        self.0 % 2 == 1
    }

    // The other literal of the node.
    pub fn opposite(self) -> Literal
        ensures is_the_other { result.0 ≡ (if nat_eq (self.0 % 2) 1 then self.0 - 1 else self.0 + 1) }
        ensures same_node_other_sign { (result.0 / 2 ≡ self.0 / 2) × (result.0 % 2 ≡ 1 - self.0 % 2) }
    {
        if self.is_negated() {
            Literal(self.0 - 1)
        } else {
            Literal(self.0 + 1)
        }
    }
}
