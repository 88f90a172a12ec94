//! The whole command line.
ghost use Rattle.std.specs.Prelude.{◌≡◌, IfOk};
ghost use Rattle.clap.specs.Words.{app_of};
ghost use Rattle.prolly_line.specs.Line.{bare_line, program_line};

use crate::assembly::{Line, described, with_three};
use crate::commands::{
    apply_line, build_line, check_line, diff_line, dump_line, explain_line, get_line, nth_line,
    pack_line, prove_line, root_line, scan_line, scratch_line, stat_line, verify_line,
};
use crate::help;
use std::alloc::Global;

/// What stands above the subcommands.
fn bare_line<'a>(alloc: Global) -> Line<'a>
    ensures { IfOk result (λ c. app_of c ≡ bare_line) }
{
    described(alloc, "prolly", help::PROGRAM)
        .version(help::VERSION)
        .subcommand_required(true)
        .no_binary_name(true)
        .bin_name("prolly")
}

/// The whole command line.
pub(crate) fn program_line<'a>(alloc: Global) -> Line<'a>
    ensures { IfOk result (λ c. app_of c ≡ program_line) }
{
    let line = with_three(
        bare_line(alloc),
        pack_line(alloc),
        scratch_line(alloc),
        build_line(alloc),
    );
    let line = with_three(
        line,
        apply_line(alloc),
        explain_line(alloc),
        check_line(alloc),
    );
    let line = with_three(line, root_line(alloc), stat_line(alloc), get_line(alloc));
    let line = with_three(line, scan_line(alloc), nth_line(alloc), dump_line(alloc));
    with_three(
        line,
        diff_line(alloc),
        prove_line(alloc),
        verify_line(alloc),
    )
}
