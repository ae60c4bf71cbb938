//! Places of the whole line, in scope or not.
ghost use Rattle.std.specs.Prelude.{◌≡◌, ◌≤◌, length, option_copied};
ghost use Rattle.bpaf_line.specs.Situation.{line_item, IsFirstPresentWithin, first_present};

use crate::state::State;
use bpaf_index::bits;
use bpaf_words::Arg;

impl State {
    /// The item at a place of the line, taken or not; the first `--` is one too. It takes no
    /// memory.
    pub fn line_item(&self, place: usize) -> Option<&Arg>
        ensures { option_copied result ≡ line_item self.now place }
    {
        self.items.get(place)
    }

    /// The first present place from one on, below another, in scope or not. It takes no memory.
    #[tactic(auto, using(crate::proofs::Places::none_present, crate::proofs::Places::some_present))]
    pub fn first_present(&self, low: usize, high: usize) -> Option<usize>
        ensures { result ≡ first_present self.now low high }
    {
        let high = high.min(self.line_len());
        if low >= high {
            return None;
        }
        let place = self.present_within(low, high);
        if place < high { Some(place) } else { None }
    }

    /// The first present place from one on, below another; that other, where there is none.
    fn present_within(&self, low: usize, high: usize) -> usize
        requires ordered { low ≤ high }
        requires inside { high ≤ length self.now.context.line }
        ensures { IsFirstPresentWithin self.now low high result }
    {
        bits::first_clear(&self.bits, low, high)
    }
}
