//! Sources, sinks and devices that fail where a test says so.
ghost use Rattle.std.specs.Prelude.{◌≡◌, ◌↔◌, IsTrue};
ghost use Rattle.prolly_io.specs.Script.{after_call};

mod device;
mod sink;
mod source;

pub use device::ScriptDevice;
pub use sink::ScriptSink;
pub use source::ScriptSource;

/// Counts one call towards the one that fails, and answers whether this is it. It fails once.
fn count_call(until_failure: &mut Option<u64>) -> bool
    ensures due { IsTrue result ↔ (until_failure.old ≡ Some 1) }
    ensures counted { until_failure.new ≡ after_call until_failure.old }
{
    match *until_failure {
        None => false,
        Some(calls) => {
            *until_failure = if calls > 1 { Some(calls - 1) } else { None };
            calls == 1
        }
    }
}
