//! The items of a line, and tests on one.
ghost use Rattle.std.specs.Prelude.{◌≡◌, option_copied};
ghost use Rattle.bpaf_base.specs.Items.{is_text_among, is_key_of, is_argument_key, is_attached};
ghost use Rattle.bpaf_base.specs.Items.{is_key, is_positional, value_text, item_text};
ghost use Rattle.bpaf_base.specs.Items.{is_command_word};

use crate::text::Text;
use std::fmt;

/// One item of the line (bpaf's `Arg`).
///
/// The first two are keys. A key is attached where a value stands behind it in its own word, as in
/// `-n=3`; its last text is the word that it stands in, or the empty text for a flag of joined
/// words that isn't the first.
#[derive(Debug, Drop)]
pub enum Arg {
    /// `-c`: the character, whether it is attached, and its word.
    Short(char, bool, Text),
    /// `--name`: the name, whether it is attached, and its word.
    Long(Text, bool, Text),
    /// The value behind an attached key, as `3` of `-n=3`.
    ArgWord(Text),
    /// A word that is no key.
    Word(Text),
    /// A word from the first `--` on, which is never a key.
    PosWord(Text),
}

/// Prints a key as `-c` or `--name`, without its value, and every other item as its text.
impl fmt::Display for Arg {
    ghost use Rattle.std.specs.Prelude.{Some};
    ghost use Rattle.bpaf_base.specs.Items.{display};

    ghost output = { λ item. Some (display item) };

    fn fmt<W: fmt::Write>(&self, f: &mut fmt::Formatter<W>) -> fmt::Result {
        match self {
            Arg::Short(c, _, _) => write!(f, "-{c}"),
            Arg::Long(name, _, _) => write!(f, "--{name}"),
            Arg::ArgWord(text) | Arg::Word(text) | Arg::PosWord(text) => write!(f, "{text}"),
        }
    }
}

/// Whether a text is among others.
pub fn is_text_among(texts: &[Text], text: &str) -> bool
    ensures { result ≡ is_text_among texts.now text.now }
{
    texts.iter().any(|other| other.as_str() == text)
}

/// Whether the item is a key with one of the names.
pub fn is_key_of(item: &Arg, shorts: &[char], longs: &[Text]) -> bool
    ensures { result ≡ is_key_of (record { shorts = shorts.now; longs = longs.now }) item.now }
{
    match item {
        Arg::Short(c, _, _) => shorts.contains(c),
        Arg::Long(name, _, _) => is_text_among(longs, name.as_str()),
        Arg::ArgWord(_) | Arg::Word(_) | Arg::PosWord(_) => false,
    }
}

/// Whether the item is such a key; under `adjacent` an attached one.
pub fn is_argument_key(item: &Arg, shorts: &[char], longs: &[Text], adjacent: bool) -> bool
    ensures { result ≡ is_argument_key
        (record { shorts = shorts.now; longs = longs.now }) adjacent item.now }
{
    is_key_of(item, shorts, longs) && !(adjacent && !is_attached(item))
}

/// Whether the item is a key with its value in its own word.
pub fn is_attached(item: &Arg) -> bool
    ensures { result ≡ is_attached item.now }
{
    match item {
        Arg::Short(_, attached, _) | Arg::Long(_, attached, _) => *attached,
        Arg::ArgWord(_) | Arg::Word(_) | Arg::PosWord(_) => false,
    }
}

/// Whether the item is a key, of a flag or an argument.
pub fn is_key(item: &Arg) -> bool
    ensures { result ≡ is_key item.now }
{
    matches!(item, Arg::Short(..) | Arg::Long(..))
}

/// Whether the item is a Word or a PosWord.
pub fn is_positional(item: &Arg) -> bool
    ensures { result ≡ is_positional item.now }
{
    matches!(item, Arg::Word(_) | Arg::PosWord(_))
}

/// The text of a Word or an ArgWord.
pub fn value_text(item: &Arg) -> Option<&Text>
    ensures { option_copied result ≡ value_text item.now }
{
    match item {
        Arg::Word(text) | Arg::ArgWord(text) => Some(text),
        Arg::Short(..) | Arg::Long(..) | Arg::PosWord(_) => None,
    }
}

/// The text of an item: of a key its whole word.
pub fn item_text(item: &Arg) -> &Text
    ensures { result.now ≡ item_text item.now }
{
    match item {
        Arg::Short(_, _, word) | Arg::Long(_, _, word) => word,
        Arg::ArgWord(text) | Arg::Word(text) | Arg::PosWord(text) => text,
    }
}

/// Whether the item is the word of a command: a Word, a Short, or a Long that isn't attached, whose
/// whole word is this one.
pub fn is_command_word(item: &Arg, word: &str) -> bool
    ensures { result ≡ is_command_word word.now item.now }
{
    match item {
        Arg::Word(text) | Arg::Short(_, _, text) | Arg::Long(_, false, text) => text.as_str()
            == word,
        Arg::Long(_, true, _) | Arg::ArgWord(_) | Arg::PosWord(_) => false,
    }
}
