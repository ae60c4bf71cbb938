//! Laws of the definitions, as contracts of functions that do nothing.
ghost use Rattle.bpaf_words.specs.Line.{LinesAreUnique, SpellingsAreUnique};

/// Each word but `--` has exactly one spelling.
pub fn spellings_are_unique()
    ensures { SpellingsAreUnique }
{}

/// Words have one line, or none and then a first ambiguous word.
pub fn lines_are_unique()
    ensures { LinesAreUnique }
{}
