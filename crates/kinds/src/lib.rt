// The kinds of basic values and the steps of a list, by document 01's numbers.
#![tactic(auto)]

ghost use Rattle.std.specs.Prelude.{◌≡◌};
ghost use Rattle.kinds.specs.Numbers.{kind_number, step_number, DecodesKind, DecodesStep};

#[derive(Clone, Copy, Debug, PartialEq, Eq)]
pub enum Kind {
    Component = 0,
    Boolean = 1,
    Null = 2,
    Integer = 3,
    Decimal = 4,
    Text = 5,
    Reference = 6,
    Vector = 7,
}

#[derive(Clone, Copy, Debug, PartialEq, Eq)]
pub enum Step {
    Make = 1,
    Take = 2,
    Enter = 3,
    Leave = 4,
    Done = 5,
    Set = 6,
    Item = 7,
    Link = 8,
}

// A number that no kind, or no step, has.
#[derive(Clone, Copy, Debug, PartialEq, Eq)]
pub struct Unknown(pub u16);

impl Kind {
    pub fn number(self) -> u16
        ensures { result ≡ kind_number self }
    {
        self as u16
    }
}

impl Step {
    pub fn number(self) -> u16
        ensures { result ≡ step_number self }
    {
        self as u16
    }
}

impl TryFrom<u16> for Kind {
    type Error = Unknown;

    ghost try_from_gives = { DecodesKind };

    fn try_from(number: u16) -> Result<Self, Unknown> {
        match number {
            0 => Ok(Kind::Component),
            1 => Ok(Kind::Boolean),
            2 => Ok(Kind::Null),
            3 => Ok(Kind::Integer),
            4 => Ok(Kind::Decimal),
            5 => Ok(Kind::Text),
            6 => Ok(Kind::Reference),
            7 => Ok(Kind::Vector),
            _ => Err(Unknown(number)),
        }
    }
}

impl TryFrom<u16> for Step {
    type Error = Unknown;

    ghost try_from_gives = { DecodesStep };

    fn try_from(number: u16) -> Result<Self, Unknown> {
        match number {
            1 => Ok(Step::Make),
            2 => Ok(Step::Take),
            3 => Ok(Step::Enter),
            4 => Ok(Step::Leave),
            5 => Ok(Step::Done),
            6 => Ok(Step::Set),
            7 => Ok(Step::Item),
            8 => Ok(Step::Link),
            _ => Err(Unknown(number)),
        }
    }
}
