//! A scope that a parse has left, to go back to it at no cost.
ghost use Rattle.std.specs.Prelude.{◌≡◌, ◌&&◌, ◌==◌, if◌then◌else◌, nat_le};
ghost use Rattle.bpaf_line.specs.Inside.{no_aside, count_within};

use crate::state::lies_within;

/// The places of a scope, how many were present there and which first, when so many places were
/// taken.
#[derive(Clone, Copy)]
pub(crate) struct Aside {
    pub(crate) start: usize,
    pub(crate) end: usize,
    pub(crate) left: usize,
    pub(crate) first: usize,
    pub(crate) taken: usize,
}

impl Aside {
    /// A scope of no places.
    pub(crate) fn nothing() -> Aside
        ensures { result ≡ no_aside }
    {
        Aside {
            start: 0,
            end: 0,
            left: 0,
            first: 0,
            taken: 0,
        }
    }

    /// This one, where no more places were taken then; else a scope of no places.
    pub(crate) fn up_to(self, taken: usize) -> Aside
        ensures { result ≡ (if nat_le self.taken taken then self else no_aside) }
    {
        if self.taken <= taken {
            self
        } else {
            Aside::nothing()
        }
    }

    /// Whether it is that of these places.
    pub(crate) fn is_of(&self, start: usize, end: usize) -> bool
        ensures { result ≡ (self.now.start == start && self.now.end == end) }
    {
        self.start == start && self.end == end
    }
}

/// How many of some places lie in a scope.
pub(crate) fn count_within(places: &[usize], start: usize, end: usize) -> usize
    ensures { result ≡ count_within start end places.now }
{
    let mut count = 0;
    for place in places {
        count += usize::from(lies_within(*place, start, end));
    }
    count
}
