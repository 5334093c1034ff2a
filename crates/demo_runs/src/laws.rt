//! A law of the definitions.

ghost use Rattle.std.specs.Prelude.{◌≡◌, ℕ};
ghost use Rattle.demo_runs.specs.declared.report_lines.DemoReport.{DemoReport};
ghost use Rattle.demo_runs.specs.Demo.{IsDemo};

/// What a demonstration tells follows from the seed and the number of messages alone: not from its
/// lanes, and not from what their threads do.
///
/// The call does nothing.
pub fn one_report()
    ensures { (seed messages : ℕ) (a b : DemoReport)
        → IsDemo seed messages a → IsDemo seed messages b → a ≡ b }
{}
