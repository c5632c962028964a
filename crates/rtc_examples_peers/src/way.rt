//! The way of datagrams between two peers.

/// A way on which some of ten datagrams are lost, and some are received twice, as numbers from a seed say.
#[derive(Clone, Copy, Debug, PartialEq, Eq)]
pub struct Way {
    pub seed: u32,
    pub lost: u32,
    pub twice: u32,
}

impl Way {
    /// A way on which each datagram is received once.
    pub fn plain() -> Way {
        Way {
            seed: 0,
            lost: 0,
            twice: 0,
        }
    }

    /// How often the next datagram is received.
    pub fn arrivals(&mut self) -> u32 {
        self.seed = self.seed.wrapping_mul(1_103_515_245).wrapping_add(12_345);
        let drawn = (self.seed >> 16) % 10;
        if drawn < self.lost {
            0
        } else if drawn < self.lost.saturating_add(self.twice) {
            2
        } else {
            1
        }
    }
}
