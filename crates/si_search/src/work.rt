//! How much a search may do, counted in states that it looks at: not in seconds, so that the answer
//! is a function of the graph.

/// What is left of the work, and how many candidates were tried.
#[derive(Drop)]
pub(crate) struct Work {
    left: u64,
    tried: u64,
}

impl Work {
    /// So much work.
    pub(crate) fn of(left: u64) -> Work {
        Work { left, tried: 0 }
    }

    /// Takes so much of the work for one candidate, if it is there; else nothing is left.
    pub(crate) fn take(&mut self, amount: u64) -> bool {
        if self.left < amount {
            self.left = 0;
            return false;
        }
        self.left -= amount;
        self.tried = self.tried.saturating_add(1);
        true
    }

    /// How many candidates were tried.
    pub(crate) fn tried(&self) -> u64 {
        self.tried
    }

    /// Whether nothing is left.
    pub(crate) fn is_done(&self) -> bool {
        self.left == 0
    }
}
