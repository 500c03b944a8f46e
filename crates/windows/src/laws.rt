// What holds of every window.
ghost use Rattle.windows.specs.Runs.{WantedByRuns};

// A key is wanted exactly when its value lies in the low run or the high run of its place.
pub fn wanted_by_runs()
    ensures { WantedByRuns }
{}
