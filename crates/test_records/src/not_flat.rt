//! Which options are no flat record, of switches, numbers and words.
use bpaf::params::{ParseArgument, ParseFlag, ParsePositional};
use bpaf::{Args, Doc, Parser, choice, construct, positional, short};
use bpaf_record::{CommandLine, FlatField, ProgramField, Record};
use std::alloc::{AllocError, Global};
use std::test::Fail;
use test_support::{number, switch};

/// Whether a parser with the usual keys for help and version is a flat record.
fn is_flat<T: Drop, P: ProgramField<T> + FlatField<T> + Drop>(
    alloc: Global,
    parser: P,
) -> Result<bool, AllocError> {
    Ok(parser.to_options(alloc)?.is_record())
}

/// A word.
fn word() -> ParsePositional<String> {
    positional("FILE")
}

/// A product of two fields.
fn pair<
    A: Drop,
    B: Drop,
    P: ProgramField<A> + FlatField<A> + Drop,
    Q: ProgramField<B> + FlatField<B> + Drop,
>(alloc: Global, first: P, second: Q) -> Result<bool, AllocError> {
    is_flat(alloc, construct!(first, second))
}

/// A product of two fields inside another.
fn nested(
    alloc: Global,
    verbose: ParseFlag<bool>,
    num: ParseArgument<u64>,
) -> Result<bool, AllocError> {
    pair(alloc, construct!(verbose, num), word())
}

/// Whether a switch is a flat record.
fn is_switch_flat(alloc: Global, parser: ParseFlag<bool>) -> Result<bool, AllocError> {
    is_flat(alloc, parser)
}

/// Whether a number is one.
fn is_number_flat(alloc: Global, parser: ParseArgument<u64>) -> Result<bool, AllocError> {
    is_flat(alloc, parser)
}

/// Whether a word is one.
fn is_word_flat(alloc: Global, parser: ParsePositional<String>) -> Result<bool, AllocError> {
    is_flat(alloc, parser)
}

/// Of single fields, whether one is a flat record.
fn leaves(alloc: Global) -> Result<bool, AllocError> {
    Ok(
        // no_record_name_of_help_or_version
        is_switch_flat(alloc, switch(alloc, 'h')?)?
            || is_switch_flat(alloc, switch(alloc, 'V')?)?
            // no_record_environment_name
            || is_switch_flat(alloc, short(alloc, 'v')?.env("VERBOSE")?.switch())?
            // no_record_adjacent
            || is_number_flat(alloc, number(alloc, 'n')?.adjacent())?
            // no_record_strict
            || is_word_flat(alloc, word().strict())?
            // no_record_non_strict
            || is_word_flat(alloc, word().non_strict())?,
    )
}

/// Whether the choice of two numbers is a flat record, under a repeat.
fn is_choice_flat(
    alloc: Global,
    first: ParseArgument<u64>,
    second: ParseArgument<u64>,
) -> Result<bool, AllocError> {
    is_flat(alloc, first.or_else(second).many())
}

/// Whether a repeat that catches is one.
fn is_catching_flat(alloc: Global, num: ParseArgument<u64>) -> Result<bool, AllocError> {
    is_flat(alloc, num.many().catch())
}

/// Whether a choice of switches is one.
fn are_switches_flat(
    alloc: Global,
    first: ParseFlag<bool>,
    second: ParseFlag<bool>,
) -> Result<bool, AllocError> {
    is_flat(alloc, first.or_else(second))
}

/// Of repeats and choices, whether one is a flat record.
fn repeats(alloc: Global) -> Result<bool, AllocError> {
    Ok(
        // no_record_name_twice_in_a_choice
        is_choice_flat(alloc, number(alloc, 'a')?, number(alloc, 'a')?)?
            // no_record_choice_with_last_value
            || is_choice_flat(alloc, number(alloc, 'a')?.take_last(), number(alloc, 'b')?)?
            // no_record_catch
            || is_catching_flat(alloc, number(alloc, 'n')?)?
            // no_record_optional_repeated
            || is_flat(alloc, word().optional().many())?
            // no_record_empty_choice
            || is_flat(alloc, choice(Vec::<ParseArgument<u64>>::new(alloc)))?
            // no_record_choice_with_switch
            || are_switches_flat(alloc, switch(alloc, 'a')?, switch(alloc, 'b')?)?,
    )
}

/// What may stand round a product.
#[derive(Clone, Copy)]
enum Round {
    Hidden,
    Titled,
    Mapped,
    Checked,
}

/// Whether a product with this round it is one.
fn is_dressed_flat<T: Drop, P: ProgramField<T> + FlatField<T> + Drop>(
    alloc: Global,
    product: P,
    round: Round,
) -> Result<bool, AllocError> {
    match round {
        // no_record_product_with_look
        Round::Hidden => is_flat(alloc, product.hide_usage()),
        Round::Titled => is_flat(alloc, product.group_help(Doc::new(alloc))),
        // no_record_product_with_closure
        Round::Mapped => is_flat(alloc, product.map(|value| value)),
        Round::Checked => is_flat(alloc, product.guard(|_| true, "no")),
    }
}

/// Of products with something round them, whether one is a flat record.
fn dressed(alloc: Global) -> Result<bool, AllocError> {
    for round in [Round::Hidden, Round::Titled, Round::Mapped, Round::Checked] {
        let verbose = switch(alloc, 'v')?;
        let file = word();
        if is_dressed_flat(alloc, construct!(verbose, file), round)? {
            return Ok(true);
        }
    }
    Ok(false)
}

/// Of products, whether one is.
fn products(alloc: Global) -> Result<bool, AllocError> {
    Ok(
        // no_record_positional_first
        pair(alloc, word(), switch(alloc, 'v')?)?
            // no_record_shared_name
            || pair(alloc, switch(alloc, 'v')?, number(alloc, 'v')?)?
            // no_record_product_inside_product
            || nested(alloc, switch(alloc, 'v')?, number(alloc, 'n')?)?
            || dressed(alloc)?,
    )
}

#[test]
fn single_fields_are_told(rt: HostRuntime) -> Result<(), Fail> {
    assert!(rt; !leaves(rt.alloc())?);
    assert!(rt; !repeats(rt.alloc())?);
    Ok(())
}

#[test]
fn products_are_told(rt: HostRuntime) -> Result<(), Fail> {
    assert!(rt; !products(rt.alloc())?);
    Ok(())
}

#[test]
fn no_value_comes_of_what_is_no_record(rt: HostRuntime) -> Result<(), Fail> {
    let options = switch(rt.alloc(), 'h')?.to_options(rt.alloc())?;
    let record = options.record_value(Args::from(&["-h"]));
    let program = options.program_value(Args::from(&["-h"]));
    assert!(rt; matches!((record, program), (Ok(None), Ok(None))));
    Ok(())
}
