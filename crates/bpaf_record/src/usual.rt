//! Whether the keys of a parser are apart from those of help and version.
ghost use Rattle.std.specs.{Prelude.◌≡◌, Prelude.false, List.list_all};
ghost use Rattle.bpaf_exact.specs.Pieces.{are_apart};
ghost use Rattle.bpaf_grammar.specs.Grammar.{keys_of};
ghost use Rattle.bpaf_record.specs.Program.{are_unusual};

use crate::field::ProgramField;
use crate::keys::{ApartFrom, ApartFromUsual};
use bpaf::Info;

/// Whether its keys, but for those inside commands, are apart from the key for help.
fn apart_from_help<T, P: ProgramField<T>>(parser: &P, info: &Info) -> bool
    ensures { result ≡ list_all (are_apart info.now.help_arg.names)
        (keys_of (P.grammar parser.now) false) }
{
    match &info.help_arg {
        Some(key) => parser.all_keys(&ApartFrom { key, deep: false }),
        None => parser.all_keys(&ApartFromUsual {
            short: 'h',
            long: "help",
        }),
    }
}

/// Whether they are apart from the key for the version.
fn apart_from_version<T, P: ProgramField<T>>(parser: &P, info: &Info) -> bool
    ensures { result ≡ list_all (are_apart info.now.version_arg.names)
        (keys_of (P.grammar parser.now) false) }
{
    match &info.version_arg {
        Some(key) => parser.all_keys(&ApartFrom { key, deep: false }),
        None => parser.all_keys(&ApartFromUsual {
            short: 'V',
            long: "version",
        }),
    }
}

/// Whether its keys, but for those inside commands, are apart from both. The names of version count
/// also where no version is set.
pub(crate) fn are_unusual<T, P: ProgramField<T>>(parser: &P, info: &Info) -> bool
    ensures { result ≡ are_unusual (keys_of (P.grammar parser.now) false) info.now }
{
    let help = apart_from_help::<T, P>(parser, info);
    let version = apart_from_version::<T, P>(parser, info);
    help && version
}
