//! A parser whose line may begin with cargo's own name of the subcommand.
ghost use Rattle.bpaf_grammar.specs.Grammar.{product};
ghost use Rattle.std.specs.Prelude.{◌≡◌, IfOk, false, Option};

use crate::leaves::literal::{ParseLiteral, literal};
use crate::product::{Both, Fields, Last};
use bpaf_core::{ParseHide, ParseOptional, Parser};
use bpaf_doc::Meta;
use bpaf_line::{Error, State};
use std::alloc::{AllocError, Global};

/// A word that may stand first or not, and isn't shown.
type SkippedWord = ParseHide<ParseOptional<ParseLiteral>>;

/// A parser before whose items a word may stand (bpaf's `cargo_helper` answers an `impl Parser`).
#[derive(Drop)]
pub struct CargoHelper<P> {
    /// The word and the parser.
    pub fields: Both<ParseHide<ParseOptional<ParseLiteral>>, Last<P>>,
}

/// The parser, which also passes over this word in front, as `cargo` puts it there for a subcommand
/// (bpaf's `cargo_helper`, in `batteries.rs`): the product of the hidden optional literal and the
/// parser, with the parser's value.
///
/// Refused only for want of memory, and then the parser is gone.
///
/// ```text
/// cargo_helper(alloc, "asm", num)?      reads `asm -n 3` and `-n 3`
/// ```
pub fn cargo_helper<P: Drop>(
    alloc: Global,
    cmd: &str,
    parser: P,
) -> Result<CargoHelper<P>, AllocError>
    ensures word { IfOk result (λ p. p.fields.first.inner.inner.text ≡ cmd.now) }
    ensures in_front { IfOk result (λ p. p.fields.first.inner.inner.anywhere ≡ false) }
    ensures no_catch { IfOk result (λ p. p.fields.first.inner.catch ≡ false) }
    ensures parser { IfOk result (λ p. p.fields.rest.last ≡ parser) }
{
    let first = literal(alloc, cmd)?.optional().hide();
    let rest = Last { last: parser };
    Ok(CargoHelper {
        fields: Both { first, rest },
    })
}

/// The word is evaluated, and then the parser, also after an error; then no word is current. Want
/// of memory is refused at once.
impl<T: Drop, P: Parser<T>> Parser<T> for CargoHelper<P> {
    ghost can_eval = { λ p. P.can_eval p.fields.rest.last };

    ghost grammar = { λ p. product (λ values v. v ≡ values.1)
        (⟦<Both<SkippedWord, Last<P>> as Fields<(Option<()>, T)>>⟧.grammar p.fields) };

    fn eval(&self, state: &mut State) -> Result<T, Error> {
        let values: Result<(Option<()>, T), Error> = self.fields.eval_fields(state);
        state.set_current(None);
        Ok(values?.1)
    }

    fn meta(&self, alloc: Global) -> Result<Meta, AllocError> {
        let mut metas = Vec::new(alloc);
        self.fields.push_metas(alloc, &mut metas)?;
        Ok(Meta::And(metas))
    }
}
