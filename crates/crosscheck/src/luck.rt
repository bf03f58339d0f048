// Numbers that look random and are the same in each run.

#[derive(Drop)]
pub struct Luck {
    state: u64,
}

impl Luck {
    pub fn new(seed: u64) -> Luck {
        let mut luck = Luck { state: seed };
        for _ in 0..4 {
            luck.draw();
        }
        luck
    }

    fn draw(&mut self) -> u32 {
        self.state = self
            .state
            .wrapping_mul(6364136223846793005)
            .wrapping_add(1442695040888963407);
        u32::try_from(self.state >> 33).unwrap_or(0)
    }

    // A number below the limit; 0 where there is none.
    pub fn below(&mut self, limit: u32) -> u32 {
        self.draw().checked_rem(limit).unwrap_or(0)
    }

    // The same for a byte.
    pub fn byte(&mut self, limit: u32) -> u8 {
        u8::try_from(self.below(limit)).unwrap_or(u8::MAX)
    }

    // True in so many of 32 cases.
    pub fn often(&mut self, cases: u32) -> bool {
        self.below(32) < cases
    }
}
