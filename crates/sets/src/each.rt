// A set's members one by one, from the lowest up, or from the highest down.
ghost use Rattle.std.specs.Prelude.{◌≡◌, ℕ};
ghost use Rattle.std.specs.Iterator.{at_most};
ghost use Rattle.sets.specs.Each.{TakesLowest, TakesHighest};

use crate::{Word, highest, lowest, rest, without};

// The members that are still to come.
#[derive(Drop)]
pub struct Members<W> {
    left: W,
}

impl<W: Word> Members<W> {
    // The members of a set.
    pub fn of(s: W) -> Members<W>
        ensures { result.left ≡ s }
    {
        Members { left: s }
    }
}

impl<W: Word> Iterator for Members<W> {
    type Item = usize;

    ghost next_gives = { λ s r t. TakesLowest W.digits (W.value s.left) r (W.value t.left) };

    ghost remaining = { λ s. at_most (W.value s.left) };

    fn next(&mut self) -> Option<usize> {
        if self.left.wide() == 0 {
            return None;
        }
        let i = lowest(self.left);
        self.left = rest(self.left);
        Some(i)
    }
}

impl<W: Word> DoubleEndedIterator for Members<W> {
    ghost next_back_gives = { λ s r t. TakesHighest W.digits (W.value s.left) r (W.value t.left) };

    fn next_back(&mut self) -> Option<usize> {
        if self.left.wide() == 0 {
            return None;
        }
        let top = highest(self.left);
        self.left = without(self.left, top);
        Some(top)
    }
}
