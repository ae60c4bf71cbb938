//! How a lamp is dimmed, by closures that check its numbers, of which it is proved that they
//! decide.
ghost use Rattle.std.specs.Prelude.{◌<◌, ◌≤◌, IfOk, map, string_bytes};
ghost use Rattle.bpaf_record.specs.Record.{WasSpelled};
ghost use Rattle.example_guide.specs.Dim.{dimming_known, percent_names};

use bpaf::{Args, ParseFailure, Parser, construct, key, short_key};
use bpaf_record::Record;
use std::alloc::Global;

/// How a lamp is dimmed.
#[derive(Debug, Drop)]
pub struct Dimming {
    pub percent: u64,
    pub lamp: u64,
    pub seconds: u64,
}

/// The dimming that the words tell: only where one of those before the first `--` spells `-p` or
/// `--percent`, and to 100 percent at most, but not to none.
pub fn read_dimming(alloc: Global, words: &[String]) -> Result<Dimming, ParseFailure>
    ensures { IfOk result (λ dimming. WasSpelled dimming_known percent_names (map string_bytes words.now)
        × (0 < dimming.percent) × (dimming.percent ≤ 100)) }
{
    let percent = key(alloc, 'p', "percent").argument::<u64>("NUM");
    let percent = percent.parse(|n| if n <= 100 { Ok(n) } else { Err("too bright") });
    let percent = percent.guard(|n| *n > 0, "no light");
    let lamp = short_key(alloc, 'l').argument::<u64>("NUM");
    let lamp = lamp.guard(|n| *n < 8, "no such lamp");
    let seconds = short_key(alloc, 's').argument::<u64>("NUM");
    let seconds = seconds.fallback_with(|| Ok::<u64, &str>(1));
    let options = construct!(Dimming {
        percent,
        lamp,
        seconds
    });
    let options = options.into_options(alloc);
    options.run_record(Args::from(words).set_name("dim"))
}
