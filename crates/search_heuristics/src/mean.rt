//! Moving means, which guide a search and no answer depends on.

/// The mean of the values that came, in parts of 2^16: each counts alike up to a number of them, and then the late ones
/// more than the early ones.
#[derive(Drop)]
pub struct Mean {
    value: u64,
    count: u64,
    most: u64,
}

impl Mean {
    /// No value came; this many count alike.
    pub fn new(most: u64) -> Mean {
        Mean {
            value: 0,
            count: 0,
            most,
        }
    }

    /// One value more.
    pub fn add(&mut self, value: u32) {
        if self.count < self.most {
            self.count = self.count.saturating_add(1);
        }
        self.value = moved(self.value, (value as u64) << 16, self.count);
    }

    /// The mean, 0 where no value came.
    pub fn value(&self) -> u64 {
        self.value
    }
}

/// A number that is moved towards another by a part of what lies between.
fn moved(from: u64, to: u64, part: u64) -> u64 {
    if part == 0 {
        return to;
    }
    if to > from {
        from.saturating_add((to - from) / part)
    } else {
        from - (from - to) / part
    }
}
