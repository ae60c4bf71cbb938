//! The present items in scope, one after another.
use crate::state::State;
use bpaf_words::Arg;

/// The present items in scope, in order, with their places (bpaf's `ArgsIter`); of
/// [`State::items_iter`].
#[derive(Drop)]
pub struct ArgsIter<'a> {
    pub(crate) state: &'a State,
    pub(crate) place: usize,
}

impl<'a> Iterator for ArgsIter<'a> {
    type Item = (usize, &'a Arg);

    ghost use Rattle.std.specs.Iterator.{YieldsFirstBy, item_count};
    ghost use Rattle.bpaf_line.specs.Taking.{items_left};

    ghost next_gives = { YieldsFirstBy (λ x. (x.0, x.1.now)) items_left };

    ghost remaining = { item_count items_left };

    fn next(&mut self) -> Option<(usize, &'a Arg)> {
        let (place, item) = self.state.next_open(self.place)?;
        self.place = place + 1;
        Some((place, item))
    }
}
