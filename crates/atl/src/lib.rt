// What rules are, and what their rounds mark.
#![tactic(auto)]

ghost use Rattle.std.specs.Prelude.{◌≡◌, ◌+◌};
ghost use Rattle.atl.specs.Kinds.{numbered_kind};
ghost use Rattle.atl.specs.Rounds.{is_open, is_yes, shown};
ghost use Rattle.atl.specs.Strategy.{EveryStrategyRuns};
ghost use Rattle.atl.specs.Playbook.{EveryFirstMove};
ghost use Rattle.atl.specs.Settling.{Enough, EveryRuleSettles};
ghost use Rattle.atl.specs.Right.{EveryRuleRight, EveryMarkRight, EveryCanRight, EveryDespiteRight, EveryPlaybookRight, EveryVerdictRight};
ghost use Rattle.atl.specs.Binding.{BindingRight};

// Who a strategic rule speaks for: what the group can bring about, or what can happen despite it.
#[derive(Clone, Copy, PartialEq, Eq, Debug)]
pub enum Modality {
    Can,
    Despite,
}

// What is to hold of the runs.
#[derive(Clone, Copy, PartialEq, Eq, Debug)]
pub enum Temporal {
    Next,
    Until,
    Unless,
}

#[derive(Clone, Copy, PartialEq, Eq, Debug)]
pub enum Kind {
    Label,
    Not,
    Or,
    Strategic(Modality, Temporal),
}

// What a rule has marked a state with: nothing yet, or yes or no with a number. The number 256 stands for none; it is no Option, since 256 is what is answered.
#[derive(Clone, Copy, PartialEq, Eq, Debug)]
pub enum Mark {
    Open,
    Yes(u16),
    No(u16),
}

#[derive(Clone, Copy, PartialEq, Eq, Debug)]
pub enum Verdict {
    Open,
    Yes,
    No,
}

// A mark as it is answered: an open state has the number 256, which tells users that there is none.
#[derive(Clone, Copy, PartialEq, Eq, Debug)]
pub struct Shown {
    pub verdict: Verdict,
    pub number: u16,
}

// A number that no kind has.
#[derive(Clone, Copy, PartialEq, Eq, Debug)]
pub struct UnknownKind(pub u8);

impl TryFrom<u8> for Kind {
    type Error = UnknownKind;

    ghost try_from_gives = { λ number r. r ≡ numbered_kind number };

    // The kind of a number from 0 to 8.
    fn try_from(number: u8) -> Result<Self, UnknownKind> {
        match number {
            0 => Ok(Kind::Label),
            1 => Ok(Kind::Not),
            2 => Ok(Kind::Or),
            3 => Ok(Kind::Strategic(Modality::Can, Temporal::Next)),
            4 => Ok(Kind::Strategic(Modality::Can, Temporal::Until)),
            5 => Ok(Kind::Strategic(Modality::Can, Temporal::Unless)),
            6 => Ok(Kind::Strategic(Modality::Despite, Temporal::Next)),
            7 => Ok(Kind::Strategic(Modality::Despite, Temporal::Until)),
            8 => Ok(Kind::Strategic(Modality::Despite, Temporal::Unless)),
            _ => Err(UnknownKind(number)),
        }
    }
}

impl Mark {
    pub fn is_open(self) -> bool
        ensures { result ≡ is_open self }
    {
        matches!(self, Mark::Open)
    }

    pub fn is_yes(self) -> bool
        ensures { result ≡ is_yes self }
    {
        matches!(self, Mark::Yes(_))
    }
}

impl From<Mark> for Shown {
    ghost from_gives = { λ mark s. s ≡ shown mark };

    fn from(mark: Mark) -> Shown {
        match mark {
            Mark::Open => Shown {
                verdict: Verdict::Open,
                number: 256,
            },
            Mark::Yes(number) => Shown {
                verdict: Verdict::Yes,
                number,
            },
            Mark::No(number) => Shown {
                verdict: Verdict::No,
                number,
            },
        }
    }
}

fn one_more(count: u16) -> u32
    ensures { result ≡ count + 1 }
{
    u32::from(count) + 1
}

// How many rounds settle any rule of a game with so many states. What the marks of a settled rule mean is proved here too.
pub fn rounds_enough(states: u16) -> u32
    ensures count { result ≡ states + 1 }
    ensures enough { Enough states result }
    ensures settling { EveryRuleSettles }
    ensures rules { EveryRuleRight }
    ensures marks { EveryMarkRight }
    ensures can { EveryCanRight }
    ensures despite { EveryDespiteRight }
    ensures runs { EveryStrategyRuns }
    ensures firsts { EveryFirstMove }
    ensures playbooks { EveryPlaybookRight }
    ensures verdicts { EveryVerdictRight }
    ensures binding { BindingRight }
{
    one_more(states)
}
