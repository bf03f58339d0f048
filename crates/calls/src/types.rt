// The calls, and what they answer.
use atl::Shown;
use refusal::Refusal;

// A call is data, and no closure: a list of calls has a law, which speaks of each.
#[derive(Clone, Copy, PartialEq, Eq, Debug)]
pub enum Call {
    // The kind, the group, and the parts r and s; numbers, since a write of any four is answered.
    Write(u8, u8, u8, u8),
    // The rule.
    Round(u8),
    Erase,
    // The rule and the state.
    Ask(u8, u8),
    // The rule.
    Tell(u8),
    // The rule and the state.
    Play(u8, u8),
    // The rule, and the place in the buffer.
    Copy(u8, usize),
}

// A refusal is an answer like the others and no error: the list goes on after it.
#[derive(Clone, Copy, PartialEq, Eq, Debug)]
pub enum Answer {
    Refused(Refusal),
    // Of a write or an erase: the number of the rule.
    Number(u8),
    // Of a round: how many states it marked.
    Marked(u16),
    // Of an ask.
    Says(Shown),
    // Of a tell: the rounds, which are told of any rule, and whether it is settled.
    Told(u16, bool),
    // Of a play: the choice.
    Choice(u32),
    // Of a copy: how many bytes it wrote.
    Copied(usize),
}
