//! What a branch took: a few places, in order.
ghost use Rattle.std.specs.Prelude.{◌≡◌, IfOk};
ghost use Rattle.bpaf_line.specs.Inside.{places_of};

use std::alloc::{AllocError, Global};
use std::slice;

/// Places in the order in which a branch took them; none and one of them take no memory.
#[derive(Drop)]
pub(crate) enum TakenPlaces {
    Empty,
    One(usize),
    Many(Vec<usize>),
}

impl TakenPlaces {
    /// These places; refused only for want of memory, where there is more than one.
    pub(crate) fn from_slice(alloc: Global, places: &[usize]) -> Result<TakenPlaces, AllocError>
        ensures { IfOk result (λ listed. places_of listed ≡ places.now) }
    {
        match places {
            [] => Ok(TakenPlaces::Empty),
            [place] => Ok(TakenPlaces::One(*place)),
            _ => Ok(TakenPlaces::Many(Vec::from_slice(alloc, places)?)),
        }
    }

    /// The places themselves.
    pub(crate) fn as_slice(&self) -> &[usize]
        ensures { result.now ≡ places_of self.now }
    {
        match self {
            TakenPlaces::Empty => &[],
            TakenPlaces::One(place) => slice::from_ref(place),
            TakenPlaces::Many(places) => places.as_slice(),
        }
    }
}
