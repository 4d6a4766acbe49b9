// Points of the picture.

/// A point, in pixels to the right of the picture's left edge and below its top.
#[derive(Clone, Copy)]
pub struct Place {
    pub x: u64,
    pub y: u64,
}

impl Place {
    /// The point so far to the right of this one and below it.
    pub fn beyond(&self, right: u64, down: u64) -> Place {
        Place {
            x: self.x.saturating_add(right),
            y: self.y.saturating_add(down),
        }
    }

    /// The point so far above this one.
    pub fn above(&self, up: u64) -> Place {
        Place {
            x: self.x,
            y: self.y.saturating_sub(up),
        }
    }

    /// Where words begin beside a symbol at this point.
    pub fn beside(&self) -> Place {
        self.beyond(14, 4)
    }

    /// The point in the same height that is so far from this one to the other's side, and not beyond it.
    pub fn toward(&self, other: &Place, most: u64) -> Place {
        let x = if self.x < other.x {
            self.x.saturating_add(most).min(other.x)
        } else {
            self.x.saturating_sub(most).max(other.x)
        };
        Place { x, y: self.y }
    }
}
