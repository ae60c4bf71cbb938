//! The names of fields, and whether they are apart.
ghost use Rattle.std.specs.Prelude.{◌≡◌, false, not, true, ◌&&◌, Bool, [], ◌∷◌};
ghost use Rattle.std.specs.List.{list_all};
ghost use Rattle.bpaf_base.specs.Items.{is_among, is_text_among};
ghost use Rattle.bpaf_exact.specs.Pieces.{are_apart};
ghost use Rattle.bpaf_grammar.specs.Grammar.{keys_of};
ghost use Rattle.bpaf_record.specs.{Record.has_no_short, Record.has_no_long};
ghost use Rattle.bpaf_doc.specs.Names.{Names};

use crate::field::{ProgramField, ProgramFields};
use bpaf::{NamedArg, Text};
use bpaf_base::is_text_among;
use std::marker::PhantomData;

/// A test of the names of a key.
pub trait KeyTest {
    /// Whether it is put to the keys inside commands too.
    ghost deep: { Self → Bool };

    /// Whether it is put to them. It takes no memory.
    fn is_deep(&self) -> bool
        ensures { result ≡ deep self.now };

    /// Whether a key with these names passes.
    ghost accepts: { Self → Names → Bool };

    /// Whether the key passes. It takes no memory.
    fn test(&self, key: &NamedArg) -> bool
        ensures { result ≡ accepts self.now key.now.names };
}

/// Whether a short name is none of these.
fn lacks_short(shorts: &[char], name: char) -> bool
    ensures { result ≡ not (is_among shorts.now name) }
{
    !shorts.contains(&name)
}

/// Whether none of these short names is one of the others.
fn shorts_apart(own: &[char], others: &[char]) -> bool
    ensures { result ≡ has_no_short others.now own.now }
{
    own.iter().all(|name| lacks_short(others, *name))
}

/// Whether none of these long names is one of the others.
fn longs_apart(own: &[Text], others: &[Text]) -> bool
    ensures { result ≡ has_no_long others.now own.now }
{
    own.iter().all(|name| !is_text_among(others, name.as_str()))
}

/// Whether two keys have no name in common.
fn are_apart(own: &NamedArg, other: &NamedArg) -> bool
    ensures { result ≡ are_apart own.now.names other.now.names }
{
    shorts_apart(own.shorts(), other.shorts()) && longs_apart(own.longs(), other.longs())
}

/// The test for no name of a key.
#[derive(Drop)]
pub(crate) struct ApartFrom<'a> {
    pub key: &'a NamedArg,
    pub deep: bool,
}

impl KeyTest for ApartFrom<'_> {
    ghost deep = { λ t. t.deep };

    fn is_deep(&self) -> bool {
        self.deep
    }

    ghost accepts = { λ t names. are_apart t.key.now.names names };

    fn test(&self, key: &NamedArg) -> bool {
        are_apart(self.key, key)
    }
}

/// The test for no name of any key of another field.
#[derive(Drop)]
pub(crate) struct ApartFromField<'a, T, P> {
    pub other: &'a P,
    pub value: PhantomData<T>,
}

impl<T, P: ProgramField<T>> KeyTest for ApartFromField<'_, T, P> {
    ghost deep = { λ t. true };

    fn is_deep(&self) -> bool {
        true
    }

    ghost accepts = { λ t names.
        list_all (are_apart names) (keys_of (P.grammar t.other.now) true) };

    fn test(&self, key: &NamedArg) -> bool {
        self.other.all_keys(&ApartFrom { key, deep: true })
    }
}

/// The test for no name of any key of other fields.
#[derive(Drop)]
pub(crate) struct ApartFromFields<'a, V, R> {
    pub others: &'a R,
    pub values: PhantomData<V>,
}

impl<V, R: ProgramFields<V>> KeyTest for ApartFromFields<'_, V, R> {
    ghost deep = { λ t. true };

    fn is_deep(&self) -> bool {
        true
    }

    ghost accepts = { λ t names.
        list_all (are_apart names) (keys_of (R.grammar t.others.now) true) };

    fn test(&self, key: &NamedArg) -> bool {
        self.others.all_keys(&ApartFrom { key, deep: true })
    }
}

/// The test that no key passes.
#[derive(Drop)]
pub(crate) struct NoKey {}

impl KeyTest for NoKey {
    ghost deep = { λ t. true };

    fn is_deep(&self) -> bool {
        true
    }

    ghost accepts = { λ t names. false };

    fn test(&self, _key: &NamedArg) -> bool {
        false
    }
}

/// The test for no name of a key of one short and one long name.
#[derive(Drop)]
pub(crate) struct ApartFromUsual<'a> {
    pub short: char,
    pub long: &'a str,
}

impl KeyTest for ApartFromUsual<'_> {
    ghost deep = { λ t. false };

    fn is_deep(&self) -> bool {
        false
    }

    ghost accepts = { λ t names.
        are_apart (record { shorts = t.short ∷ []; longs = t.long.now ∷ [] }) names };

    #[tactic(auto, using(crate::proofs::Parts::and_true))]
    fn test(&self, key: &NamedArg) -> bool {
        let short = lacks_short(key.shorts(), self.short);
        let long = is_text_among(key.longs(), self.long);
        short && !long
    }
}
