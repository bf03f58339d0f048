// The five questions that every game answers.
ghost use Rattle.std.specs.Prelude.{◌≡◌, nat_lt};
ghost use Rattle.game.specs.Structure.{Structure, Limits};

pub trait Game {
    // The whole meaning of the game; each answer is read off it.
    ghost meaning: { Self → Structure };

    // What every implementation shows of its meaning.
    ghost limits: { (g : Self) → Limits (meaning g) };

    // How many players there are.
    fn players(&self) -> u8
        ensures { result ≡ (meaning self.now).players };

    // How many states there are, and which is the start.
    fn states(&self) -> (u16, u8)
        ensures { (result.0 ≡ (meaning self.now).states) × (result.1 ≡ (meaning self.now).start) };

    // How many moves the player has at the state; 0 for one that the game lacks.
    fn moves(&self, player: u8, state: u8) -> u8
        ensures { result ≡ (meaning self.now).moves player state };

    // The labels that stand at the state, bit l for label l; 0 for a state that the game lacks.
    fn labels(&self, state: u8) -> u16
        ensures { result ≡ (meaning self.now).labels state };

    // Where the vector leads; None for a state or a vector that the game lacks.
    fn next(&self, state: u8, vector: u32) -> Option<u8>
        ensures { result ≡ (meaning self.now).next state vector };

    // Whether the game has the state.
    final fn has_state(&self, state: u8) -> bool
        ensures { result ≡ nat_lt state (meaning self.now).states }
    {
        let (states, _) = self.states();
        (state as u16) < states
    }
}
