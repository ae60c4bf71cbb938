//! Types of one's own that are read from a word: a list of ranges, and one of some words.
ghost use Rattle.std.specs.Prelude.{◌≡◌, codes, true};
ghost use Rattle.example_pages.specs.Ranges.{are_digits, are_ranges, ends, is_range};

use bpaf::{Args, FromText, ParseFailure, Parser, Text, TextFault, construct, long_key, short_key};
use std::alloc::Global;

/// A list of ranges, such as `1,3-5,7-`, as it was typed.
#[derive(Debug, Drop)]
pub struct Ranges(pub Text);

/// The words that are ranges with a comma between two.
impl FromText for Ranges {
    ghost means = { λ text ranges. (ranges.0 ≡ text) × (are_ranges text ≡ true) };

    fn from_text(alloc: Global, text: &str) -> Result<Ranges, TextFault> {
        if are_ranges(text) {
            return Ok(Ranges(Text::new(alloc, text)?));
        }
        Err(TextFault::Fault(String::from_str(alloc, "no ranges such as 1,3-5,7-")?))
    }
}

/// Whether these are ranges, with a comma between two.
fn are_ranges(text: &str) -> bool
    ensures { result ≡ are_ranges text.now }
{
    let mut rest = text;
    while let Some((part, more)) = rest.split_once(',') {
        if !is_range(part) {
            return false;
        }
        rest = more;
    }
    is_range(rest)
}

/// Whether it is one range: digits, or digits around a dash, on one side of it at least.
fn is_range(part: &str) -> bool
    ensures { result ≡ is_range part.now }
{
    let (from, to) = ends(part);
    are_digits(from) && are_digits(to) && !(from.is_empty() && to.is_empty())
}

/// What stands before the first dash and behind it; all of it where there is none.
fn ends(part: &str) -> (&str, &str)
    ensures { (result.0.now, result.1.now) ≡ ends part.now }
{
    match part.split_once('-') {
        None => (part, ""),
        Some(ends) => ends,
    }
}

/// Whether all characters are digits.
fn are_digits(text: &str) -> bool
    ensures { result ≡ are_digits text.now }
{
    text.as_bytes().iter().all(|c| c.is_ascii_digit())
}

/// When colours are shown.
#[derive(Clone, Copy, Debug)]
pub enum When {
    Always,
    Never,
    Auto,
}

/// The words `always`, `never` and `auto`.
impl FromText for When {
    ghost use Rattle.example_pages.specs.declared.ranges.When.TheVariants.{Always, Never, Auto};

    ghost means = { λ text when. elim when [
      | Always ↦ text ≡ codes "always"
      | Never ↦ text ≡ codes "never"
      | Auto ↦ text ≡ codes "auto"
    ] };

    fn from_text(alloc: Global, text: &str) -> Result<When, TextFault> {
        match text {
            "always" => Ok(When::Always),
            "never" => Ok(When::Never),
            "auto" => Ok(When::Auto),
            _ => Err(TextFault::Fault(String::from_str(alloc, "always, never or auto")?)),
        }
    }
}

/// Which fields are cut, and when colours are shown.
pub fn read_cut(alloc: Global, words: &[&str]) -> Result<(Ranges, When), ParseFailure> {
    let fields = short_key(alloc, 'f').argument::<Ranges>("LIST");
    let fields = fields.help("Fields, such as 1,3-5,7-");
    let color = long_key(alloc, "color").argument::<When>("always|never|auto");
    let color = color.help("When colours are shown").fallback(When::Auto);
    construct!(fields, color).run_once(alloc, Args::from(words))
}
