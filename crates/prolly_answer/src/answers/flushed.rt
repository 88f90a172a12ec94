//! The flush behind what a command wrote.
ghost use Rattle.std.specs.Prelude.{◌≡◌, ◌↔◌, IsTrue};
ghost use Rattle.prolly_answer.specs.Outputs.{IsSettledAs};

use prolly_fault::{Fault, OutputFault, RootOutputFault};
use prolly_io::{Sink, SinkFault};

/// Flushes the sink, and answers the outcome, or else that this failed. A sink of which a write
/// failed is left as it is.
pub(crate) fn settled<W: Sink, T: Drop, F: Stop>(
    sink: &mut W,
    outcome: Result<T, F>,
) -> Result<T, F>
    ensures { IsSettledAs W.seen F.failed_write sink.old sink.new outcome result }
{
    if matches!(&outcome, Err(stop) if stop.is_failed_write()) {
        return outcome;
    }
    sink.flush()?;
    outcome
}

/// What stops a command that writes to a sink.
pub(crate) trait Stop: Copy + From<SinkFault> {
    /// A write failed.
    ghost failed_write: { Self };

    /// Whether a write failed.
    fn is_failed_write(self) -> bool
        ensures { IsTrue result ↔ (self ≡ failed_write) };

    /// A fault of the sink is told so.
    ghost of_sink: { (failed : _) (stop : Self) → Self.from_gives failed stop →
        stop ≡ failed_write };
}

impl Stop for Fault {
    ghost use Rattle.prolly_fault.specs.declared.fault.Fault.TheVariants.{Write};

    ghost failed_write = { Write };

    ghost of_sink = { λ failed stop is. is };

    fn is_failed_write(self) -> bool {
        matches!(self, Fault::Write)
    }
}

impl Stop for RootOutputFault {
    ghost use Rattle.prolly_fault.specs.declared.output_fault.OutputFault.TheVariants.{Write};
    ghost use Rattle.prolly_fault.specs.declared.root_output_fault.RootOutputFault.TheVariants.{Output};

    ghost failed_write = { Output Write };

    ghost of_sink = { λ failed stop is. is };

    fn is_failed_write(self) -> bool {
        matches!(self, RootOutputFault::Output(OutputFault::Write))
    }
}
