//! A look at the places of a bucket, some at a time, which goes round.

ghost use Rattle.std.specs.Prelude.{◌≤◌};

/// Which places are still to be looked at: a number of them, going down from one, and after the lowest on from the highest. A look that begins goes
/// on where the one before it was, so that each place has its turn, however often looks begin. Both numbers count steps of one place, or of more if
/// there are more than a `u32` counts.
#[derive(Drop)]
pub(crate) struct Look {
    unseen: u32, // or all places, if they are fewer
    below: u32, // the next one stands below this place
}

impl Look {
    /// No place is to be looked at.
    pub(crate) fn new() -> Look {
        Look {
            unseen: 0,
            below: 0,
        }
    }

    /// All places are to be looked at.
    pub(crate) fn begin(&mut self) {
        self.unseen = u32::MAX;
    }

    /// The same if a place is still to be looked at: cells stand elsewhere now.
    pub(crate) fn again(&mut self) {
        if self.has_unseen() {
            self.begin();
        }
    }

    /// No place is to be looked at any more.
    pub(crate) fn end(&mut self) {
        self.unseen = 0;
    }

    /// Whether a place is still to be looked at.
    #[inline]
    pub(crate) fn has_unseen(&self) -> bool {
        self.unseen > 0
    }

    /// The next of so many places, and no more than `most`: where they begin, and where they end.
    pub(crate) fn next(&mut self, places: usize, most: usize) -> (usize, usize)
        ensures { result.1 ≤ places }
    {
        let step = (places >> 32).saturating_add(1);
        let all = steps(places, step);
        let end = if self.below == 0 {
            all
        } else {
            self.below.min(all)
        };
        let unseen = self.unseen.min(all);
        let first = end.saturating_sub(unseen.min(steps(most, step)));
        self.unseen = unseen.saturating_sub(end - first);
        self.below = first;
        (
            step.saturating_mul(first as usize),
            step.saturating_mul(end as usize).min(places),
        )
    }
}

// How many steps so many places are.
fn steps(places: usize, step: usize) -> u32
    requires { 1 ≤ step }
{
    places.div_ceil(step).min(u32::MAX as usize) as u32
}
