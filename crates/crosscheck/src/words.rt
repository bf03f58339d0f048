// Rules, calls and answers in the second judge's own words.
ghost use Rattle.std.specs.Prelude.{◌≡◌, true, false};
ghost use Rattle.crosscheck.specs.declared.words.Kind.TheVariants.{Label, Not, Or, Can, CannotHelp};

use std::fmt;

// What is to hold of the runs.
#[derive(Clone, Copy, PartialEq, Eq)]
pub enum Goal {
    Next,
    Until,
    Unless,
}

#[derive(Clone, Copy, PartialEq, Eq)]
pub enum Kind {
    Label,
    Not,
    Or,
    // The group has a choice that brings the goal about, whatever is replied.
    Can(Goal),
    // Each choice of the group has a reply that brings the goal about.
    CannotHelp(Goal),
}

impl Kind {
    // By number.
    pub const ALL: [Kind; 9] = [
        Kind::Label,
        Kind::Not,
        Kind::Or,
        Kind::Can(Goal::Next),
        Kind::Can(Goal::Until),
        Kind::Can(Goal::Unless),
        Kind::CannotHelp(Goal::Next),
        Kind::CannotHelp(Goal::Until),
        Kind::CannotHelp(Goal::Unless),
    ];

    // Of how many other rules a rule of the kind is made.
    pub fn parts(self) -> usize {
        match self {
            Kind::Label => 0,
            Kind::Not | Kind::Can(Goal::Next) | Kind::CannotHelp(Goal::Next) => 1,
            _ => 2,
        }
    }
}

impl TryFrom<u8> for Kind {
    type Error = Why;

    fn try_from(number: u8) -> Result<Kind, Why> {
        Kind::ALL.get(number as usize).copied().ok_or(Why::NoKind)
    }
}

impl From<Kind> for u8 {
    // A match and no search in ALL, which would have to answer for a kind that is not there.
    fn from(kind: Kind) -> u8 {
        match kind {
            Kind::Label => 0,
            Kind::Not => 1,
            Kind::Or => 2,
            Kind::Can(Goal::Next) => 3,
            Kind::Can(Goal::Until) => 4,
            Kind::Can(Goal::Unless) => 5,
            Kind::CannotHelp(Goal::Next) => 6,
            Kind::CannotHelp(Goal::Until) => 7,
            Kind::CannotHelp(Goal::Unless) => 8,
        }
    }
}

#[derive(Clone, Copy)]
pub struct Rule {
    pub kind: Kind,
    pub group: u8,
    pub r: u8,
    pub s: u8,
}

impl Rule {
    // A rule that says what the group can has a playbook.
    pub fn is_playable(self) -> bool
        ensures { result ≡ elim self.kind [ Label ↦ false | Not ↦ false | Or ↦ false | Can _ ↦ true | CannotHelp _ ↦ false ] }
    {
        matches!(self.kind, Kind::Can(_))
    }
}

impl From<Rule> for [u8; 4] {
    fn from(rule: Rule) -> [u8; 4] {
        [u8::from(rule.kind), rule.group, rule.r, rule.s]
    }
}

// Why a call is refused, with the number under which that is told.
#[derive(Clone, Copy)]
pub enum Why {
    Full = 1,
    NoKind = 2,
    NoGroup = 3,
    NoPart = 4,
    NoRule = 5,
    NoState = 6,
    PartUnsettled = 7,
    Settled = 8,
    Unsettled = 9,
    NoPlaybook = 10,
    NoRoom = 11,
    NoChoice = 12,
    NoLimit = 13,
}

impl From<Why> for u8 {
    fn from(why: Why) -> u8 {
        why as u8
    }
}

#[derive(Clone, Copy)]
pub enum Call {
    // The kind, the group and the two parts of what is to be a rule, by number.
    Write([u8; 4]),
    Erase,
    // The rule.
    Round(u8),
    // The rule and the state.
    Ask(u8, u8),
    // The rule.
    Tell(u8),
    // The rule and the state.
    Play(u8, u8),
    // The rule, and the place in the buffer.
    Copy(u8, usize),
}

impl Call {
    // The rule that the call asks for.
    pub fn rule(self) -> Option<u8> {
        match self {
            Call::Write(_) | Call::Erase => None,
            Call::Round(rule) | Call::Tell(rule) => Some(rule),
            Call::Ask(rule, _) | Call::Play(rule, _) => Some(rule),
            Call::Copy(rule, _) => Some(rule),
        }
    }
}

impl From<Rule> for Call {
    fn from(rule: Rule) -> Call {
        Call::Write(<[u8; 4]>::from(rule))
    }
}

// What a call is answered with. The judges have no enum of refusals in common, so a refusal is told by its number; a mark may have none.
#[derive(Clone, Copy, PartialEq, Eq)]
pub enum Said {
    Refused(u8),
    Number(u8),
    Marked(u16),
    Open(Option<u16>),
    Yes(Option<u16>),
    No(Option<u16>),
    Told(u16, bool),
    Choice(u32),
    Copied(usize),
}

impl From<Why> for Said {
    fn from(why: Why) -> Said {
        Said::Refused(u8::from(why))
    }
}

// The number that stands for none where a mark is told.
pub const NONE: u16 = 256;

impl fmt::Display for Rule {
    fn fmt<W: fmt::Write>(&self, f: &mut fmt::Formatter<W>) -> fmt::Result {
        let [kind, group, r, s] = <[u8; 4]>::from(*self);
        write!(f, "kind {kind} group {group} r {r} s {s}")
    }
}

impl fmt::Display for Call {
    fn fmt<W: fmt::Write>(&self, f: &mut fmt::Formatter<W>) -> fmt::Result {
        match *self {
            Call::Write(numbers) => {
                let [kind, group, r, s] = numbers;
                write!(f, "write kind {kind} group {group} r {r} s {s}")
            }
            Call::Erase => write!(f, "erase"),
            Call::Round(rule) => write!(f, "round of rule {rule}"),
            Call::Ask(rule, state) => write!(f, "rule {rule} at state {state}"),
            Call::Tell(rule) => write!(f, "rounds of rule {rule}"),
            Call::Play(rule, state) => write!(f, "playbook of rule {rule} at state {state}"),
            Call::Copy(rule, place) => write!(f, "copy of rule {rule} to place {place}"),
        }
    }
}

impl fmt::Display for Said {
    fn fmt<W: fmt::Write>(&self, f: &mut fmt::Formatter<W>) -> fmt::Result {
        match *self {
            Said::Refused(number) => write!(f, "refused {number}"),
            Said::Number(rule) => write!(f, "rule {rule}"),
            Said::Marked(count) => write!(f, "{count} marked"),
            Said::Open(number) => write!(f, "open {}", number.unwrap_or(NONE)),
            Said::Yes(number) => write!(f, "yes {}", number.unwrap_or(NONE)),
            Said::No(number) => write!(f, "no {}", number.unwrap_or(NONE)),
            Said::Told(rounds, settled) => write!(f, "{rounds} rounds, settled {settled}"),
            Said::Choice(choice) => write!(f, "choice {choice}"),
            Said::Copied(bytes) => write!(f, "{bytes} bytes"),
        }
    }
}
