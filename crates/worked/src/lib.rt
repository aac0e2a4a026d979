// Worked runs of three sites with bookings.
#![tactic(auto)]

ghost use Rattle.worked.specs.Worked.{WorkedRuns};

// The worked runs: what each call answers and leaves, with every byte.
pub fn worked_runs()
    ensures { WorkedRuns }
{}
