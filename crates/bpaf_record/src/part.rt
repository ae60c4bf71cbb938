//! What a parser is to a program with commands.
ghost use Rattle.std.specs.Prelude.{◌≡◌};
ghost use Rattle.bpaf_record.specs.Part.{before_part, chosen_part, closed_part, command_part};
ghost use Rattle.bpaf_record.specs.Part.{completed_part, dressed_part, field_part, is_named_kind};
ghost use Rattle.bpaf_record.specs.Part.{is_program_part, is_record_part, last_part, made_part};
ghost use Rattle.bpaf_record.specs.Part.{as_part, has_named_part, may_stand, only_part};
ghost use Rattle.bpaf_record.specs.Part.{is_commands_part, is_last_part, joined_part, part_if};

/// What the items of a field are.
#[derive(Clone, Copy)]
pub enum Kind {
    /// Keys with one of its names.
    Named,
    /// Positional words.
    Word,
}

impl Kind {
    /// Whether they are keys.
    fn is_named(self) -> bool
        ensures { result ≡ is_named_kind self }
    {
        matches!(self, Kind::Named)
    }

    /// Whether others may stand behind it, whose keys are apart from its own or not: behind a
    /// positional word no key may.
    fn may_stand(self, apart: bool, no_key_behind: bool) -> bool
        ensures { result ≡ may_stand self apart no_key_behind }
    {
        match self {
            Kind::Named => apart,
            Kind::Word => no_key_behind,
        }
    }
}

/// What a parser is to a program with commands. A wide field or record may stand in a program
/// alone, and in no flat record.
#[derive(Clone, Copy)]
pub enum ProgramPart {
    /// Nothing.
    NoPart,
    /// A required flag or argument, or a choice of them.
    Alternative { wide: bool },
    /// Another field without a repeat or default.
    Single { wide: bool, kind: Kind },
    /// A field with a repeat or default.
    Complete { wide: bool, kind: Kind },
    /// A product of fields, which are all named or aren't.
    Product { wide: bool, named: bool },
    /// A command, or a choice of commands, perhaps under a repeat or a default, or left out.
    Commands { optional: bool },
    /// Named fields, and then commands.
    BeforeCommands,
    /// A named part that is no flat field or record.
    Part,
    /// A choice of named parts and commands.
    LastChoice,
    /// Named parts, and then words or commands.
    AfterParts,
}

impl ProgramPart {
    /// This, where a test holds, or nothing.
    pub(crate) fn only_if(self, test: bool) -> ProgramPart
        ensures { result ≡ part_if test self }
    {
        if test { self } else { ProgramPart::NoPart }
    }

    /// Whether it is a named part too.
    pub(crate) fn has_named_part(self) -> bool
        ensures { result ≡ has_named_part self }
    {
        match self {
            ProgramPart::Single { kind, .. } | ProgramPart::Complete { kind, .. } =>
                kind.is_named(),
            ProgramPart::Product { named, .. } => named,
            ProgramPart::Alternative { .. } | ProgramPart::Part => true,
            _ => false,
        }
    }

    /// A named part, where it is one, or nothing.
    fn as_part(self) -> ProgramPart
        ensures { result ≡ as_part self }
    {
        ProgramPart::Part.only_if(self.has_named_part())
    }

    /// With a closure round it: a field and commands stay what they are, and a product of named
    /// fields is a part.
    pub(crate) fn closed(self) -> ProgramPart
        ensures { result ≡ closed_part self }
    {
        match self {
            ProgramPart::Product { named, .. } => ProgramPart::Part.only_if(named),
            ProgramPart::LastChoice => ProgramPart::AfterParts,
            other => other,
        }
    }

    /// With another look: what it is, but that a record is a wide one then.
    pub(crate) fn dressed(self) -> ProgramPart
        ensures { result ≡ dressed_part self }
    {
        match self {
            ProgramPart::Product { named, .. } => ProgramPart::Product { wide: true, named },
            other => other,
        }
    }

    /// With a repeat or a default, or what may be left out.
    pub(crate) fn completed(self) -> ProgramPart
        ensures { result ≡ completed_part self }
    {
        match self {
            ProgramPart::Alternative { wide } => ProgramPart::Complete {
                wide,
                kind: Kind::Named,
            },
            ProgramPart::Single { wide, kind } => ProgramPart::Complete { wide, kind },
            ProgramPart::Commands { optional: false } => ProgramPart::Commands { optional: true },
            other => other.as_part(),
        }
    }

    /// Whether it is a command or a choice of commands.
    fn is_commands(self) -> bool
        ensures { result ≡ is_commands_part self }
    {
        matches!(self, ProgramPart::Commands { optional: false })
    }

    /// Whether it may stand in a choice of named parts and commands.
    fn is_last(self) -> bool
        ensures { result ≡ is_last_part self }
    {
        match self {
            ProgramPart::Commands { optional: false } | ProgramPart::LastChoice => true,
            other => other.has_named_part(),
        }
    }

    /// The choice of two that aren't flat, nor commands alone.
    fn join(self, other: ProgramPart, keys_apart: bool, words_apart: bool) -> ProgramPart
        ensures { result ≡ joined_part keys_apart words_apart self other }
    {
        let are_parts = self.has_named_part() && other.has_named_part();
        let may_share = self.is_commands() || other.is_commands();
        let apart = words_apart && (keys_apart || may_share);
        let are_last = self.is_last() && other.is_last();
        if are_parts {
            ProgramPart::Part.only_if(keys_apart)
        } else {
            ProgramPart::LastChoice.only_if(apart && are_last)
        }
    }

    /// The choice of two, whose keys are apart or not, and whose words are or aren't. A named part
    /// may share keys with those inside commands.
    pub(crate) fn or_else(
        self,
        other: ProgramPart,
        keys_apart: bool,
        words_apart: bool,
    ) -> ProgramPart
        ensures { result ≡ chosen_part keys_apart words_apart self other }
    {
        match (self, other) {
            (ProgramPart::Alternative { wide }, ProgramPart::Alternative { wide: other }) => {
                let wide = wide || other;
                ProgramPart::Alternative { wide }.only_if(keys_apart)
            }
            (
                ProgramPart::Commands { optional: false },
                ProgramPart::Commands { optional: false },
            ) => ProgramPart::Commands { optional: false }.only_if(words_apart),
            (this, that) => this.join(that, keys_apart, words_apart),
        }
    }

    /// The choice of it alone.
    pub(crate) fn only(self) -> ProgramPart
        ensures { result ≡ only_part self }
    {
        match self {
            ProgramPart::Alternative { .. } | ProgramPart::Commands { optional: false } => self,
            other => other.as_part(),
        }
    }

    /// Behind the word of a command that may open a program, or mayn't.
    pub(crate) fn command(self, opens: bool) -> ProgramPart
        ensures { result ≡ command_part opens self }
    {
        let opens = opens && self.is_program();
        ProgramPart::Commands { optional: false }.only_if(opens)
    }

    /// As a field of a product.
    pub(crate) fn field(self) -> ProgramPart
        ensures { result ≡ field_part self }
    {
        match self {
            ProgramPart::Product { named: true, .. } => ProgramPart::Complete {
                wide: true,
                kind: Kind::Named,
            },
            ProgramPart::Product { named: false, .. } => ProgramPart::Product {
                wide: true,
                named: false,
            },
            ProgramPart::Complete { .. }
            | ProgramPart::Commands { .. }
            | ProgramPart::BeforeCommands
            | ProgramPart::AfterParts => self,
            ProgramPart::LastChoice => ProgramPart::AfterParts,
            other => other.completed(),
        }
    }

    /// As the last field of a product.
    pub(crate) fn last(self) -> ProgramPart
        ensures { result ≡ last_part self }
    {
        match self {
            ProgramPart::Complete { wide, kind } => {
                let named = kind.is_named();
                ProgramPart::Product { wide, named }
            }
            ProgramPart::Product { named: false, .. } => self,
            ProgramPart::Commands { .. } | ProgramPart::BeforeCommands => {
                ProgramPart::BeforeCommands
            }
            ProgramPart::Part | ProgramPart::AfterParts => self,
            _ => ProgramPart::NoPart,
        }
    }

    /// As a field before others, whose keys are apart from its own or not; after a positional
    /// word no key may stand, and before commands none of those.
    pub(crate) fn then(self, rest: ProgramPart, apart: bool, no_key_behind: bool) -> ProgramPart
        ensures { result ≡ before_part self rest apart no_key_behind }
    {
        match (self, rest) {
            (ProgramPart::Complete { wide, kind }, ProgramPart::Product { wide: other, named }) => {
                let wide = wide || other;
                let named = kind.is_named() && named;
                ProgramPart::Product { wide, named }.only_if(kind.may_stand(apart, no_key_behind))
            }
            (
                ProgramPart::Complete {
                    kind: Kind::Named,
                    ..
                },
                ProgramPart::BeforeCommands,
            ) => ProgramPart::BeforeCommands.only_if(apart),
            (
                ProgramPart::Complete {
                    kind: Kind::Named,
                    ..
                }
                | ProgramPart::Part,
                ProgramPart::AfterParts,
            )
            | (
                ProgramPart::Part,
                ProgramPart::Product { named: false, .. } | ProgramPart::BeforeCommands,
            ) => ProgramPart::AfterParts.only_if(apart),
            (first, rest) => {
                let parts = first.has_named_part() && rest.has_named_part();
                ProgramPart::Part.only_if(apart && parts)
            }
        }
    }

    /// With a constructor.
    pub(crate) fn made(self) -> ProgramPart
        ensures { result ≡ made_part self }
    {
        match self {
            ProgramPart::Product { .. } | ProgramPart::BeforeCommands | ProgramPart::AfterParts =>
                self,
            other => other.as_part(),
        }
    }

    /// Whether it is a program.
    pub(crate) fn is_program(self) -> bool
        ensures { result ≡ is_program_part self }
    {
        !matches!(self, ProgramPart::NoPart)
    }

    /// Whether it is a flat record: one field, or a product.
    pub(crate) fn is_record(self) -> bool
        ensures { result ≡ is_record_part self }
    {
        match self {
            ProgramPart::Alternative { wide }
            | ProgramPart::Single { wide, .. }
            | ProgramPart::Complete { wide, .. }
            | ProgramPart::Product { wide, .. } => !wide,
            _ => false,
        }
    }
}
