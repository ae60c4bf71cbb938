//! A worked row of options that a program knows, through `run_program`.
use bpaf::{Args, Parser, short};
use bpaf_program::{KnownOptions, KnownProgram};
use bpaf_record::CommandLine;
use std::test::Fail;
use test_support::fits;

/// The program of a switch `-v`.
#[derive(Drop)]
struct Verbose {}

impl KnownProgram<bool> for Verbose {
    ghost use Rattle.std.specs.Prelude.{None, [], codes, refl};
    ghost use Rattle.bpaf_program.specs.KnownParser.{known_switch};

    ghost grammar = { known_switch (record { shorts = codes "v"; longs = [] }) None };

    ghost whole = { λ variables. refl };
}

#[test]
fn known_options_run_as_programs(rt: HostRuntime) -> Result<(), Fail> {
    let alloc = rt.alloc();
    let options = KnownOptions {
        options: short(alloc, 'v')?.switch().to_options(alloc)?,
        program: Verbose {},
    };
    // program_that_is_known
    if !options.is_program() {
        return Err(Fail::new("no program"));
    }
    // known_switch
    fits(alloc, options.run_program(Args::from(&["-v"])), "ok true")
}
