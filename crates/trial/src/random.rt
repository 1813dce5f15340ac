// Numbers that look random and are the same in each run.

// A generator by shifts, whose state is never 0.
#[derive(Drop)]
pub struct Random {
    state: u64,
}

impl Random {
    pub fn new(seed: u64) -> Random {
        Random { state: seed | 1 }
    }

    fn next(&mut self) -> u64 {
        let mut x = self.state;
        x ^= x << 13;
        x ^= x >> 7;
        x ^= x << 17;
        self.state = x;
        x.wrapping_mul(0x2545_f491_4f6c_dd1d) >> 24
    }

    // A number below n, and 0 where there is none.
    pub fn below(&mut self, n: u32) -> u32 {
        let x = self.next();
        if n == 0 { 0 } else { (x % u64::from(n)) as u32 }
    }

    // A number from low to high, both possible.
    pub fn between(&mut self, low: u32, high: u32) -> u32 {
        low.saturating_add(self.below(high.saturating_sub(low).saturating_add(1)))
    }

    // Whether one of n chances came.
    pub fn one_in(&mut self, n: u32) -> bool {
        self.below(n) == 0
    }
}
