// Why a call was declined.
#![tactic(auto)]

ghost use Rattle.std.specs.Prelude.{◌≡◌};
ghost use Rattle.refusal.specs.Numbers.{«number_of»};

// A refused call leaves board, game and buffers as they were.
#[derive(Clone, Copy, PartialEq, Eq, Debug)]
pub enum Refusal {
    // A write with 32 rules standing.
    Full,
    // A write of a kind above 8.
    NoKind,
    // A write whose group names a missing player, or is not 0 in a kind that has none.
    NoGroup,
    // A write with a label above 15, a part that does not stand, or an unused part that is not 0.
    NoPart,
    // No such rule, or an erase with none standing.
    NoRule,
    // No such state.
    NoState,
    // A round of a rule that has an unsettled part.
    PartUnsettled,
    // A round of a settled rule.
    AlreadySettled,
    // A playbook asked of a rule that is not settled.
    NotSettled,
    // A playbook asked of a rule that is not of a can-kind.
    NoPlaybook,
    // A buffer that has too few bytes from the place on.
    NoRoom,
    // An entry that is no choice of the group at its state.
    NoChoice,
    // A drill's limit outside 1 to 253.
    NoLimit,
}

// The number under which a refusal is reported.
impl From<Refusal> for u8 {
    ghost from_gives = { λ refusal number. number ≡ number_of refusal };

    fn from(refusal: Refusal) -> u8 {
        match refusal {
            Refusal::Full => 1,
            Refusal::NoKind => 2,
            Refusal::NoGroup => 3,
            Refusal::NoPart => 4,
            Refusal::NoRule => 5,
            Refusal::NoState => 6,
            Refusal::PartUnsettled => 7,
            Refusal::AlreadySettled => 8,
            Refusal::NotSettled => 9,
            Refusal::NoPlaybook => 10,
            Refusal::NoRoom => 11,
            Refusal::NoChoice => 12,
            Refusal::NoLimit => 13,
        }
    }
}
