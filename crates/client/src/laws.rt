//! Theorems about connections. Each is what a function here ensures.

ghost use Rattle.client.specs.Cases.{WorkedCases};
ghost use Rattle.client.specs.Law.{LawOverRuns};
ghost use Rattle.client.specs.Reached.{Reused};
ghost use Rattle.client.specs.Standard.{StandardOverRuns};
ghost use Rattle.client.specs.Wider.{WiderCases};

/// The worked cases, over the core alone and over a wider table.
pub fn worked_cases()
    ensures core { WorkedCases }
    ensures wider { WiderCases }
{}

/// Runs exist in which a number is used again.
pub fn numbers_come_back()
    ensures { Reused }
{}

/// The law over whole runs: any calls in any order, any transport, whatever the world does in between.
pub fn law_over_runs()
    ensures { LawOverRuns }
{}

/// What the Wayland protocol asks of objects' numbers and of errors, over whole runs.
pub fn standard_over_runs()
    ensures { StandardOverRuns }
{}
