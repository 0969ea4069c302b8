//! Numbers and words that seem random.
ghost use Rattle.std.specs.Prelude.{◌<◌, length};

/// Numbers that seem random, by xorshift.
#[derive(Drop)]
pub struct Numbers {
    state: u32,
}

impl Numbers {
    /// The numbers of a seed, which is not 0.
    pub fn new(seed: u32) -> Numbers {
        Numbers {
            state: seed.wrapping_mul(0x9e37),
        }
    }

    pub fn next(&mut self) -> u32 {
        let mut state = self.state;
        state ^= state << 13;
        state ^= state >> 17;
        state ^= state << 5;
        self.state = state;
        state
    }

    /// One of the values of a list.
    pub fn choose<T: Copy>(&mut self, from: &[T]) -> T
        requires { 0 < length from.now }
    {
        let chosen = self.next() as usize % from.len();
        from[chosen]
    }

    /// The word of a pattern with its free bits at random.
    pub fn filled(&mut self, pattern: (u32, u32)) -> u32 {
        let (fixed, free) = pattern;
        fixed ^ self.next() & free
    }

    /// The word of one of these patterns.
    pub fn word(&mut self, patterns: &[(u32, u32)]) -> u32
        requires { 0 < length patterns.now }
    {
        let pattern = self.choose(patterns);
        self.filled(pattern)
    }
}
