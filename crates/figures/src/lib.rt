// The worked figures, as one theorem over their table and as runs.
#![tactic(auto)]

ghost use Rattle.std.specs.Prelude.{◌≡◌, length};
ghost use Rattle.std.specs.List.{AllByRecursion};
ghost use Rattle.figures.specs.Table.{Holds, table};

// The number of worked figures, each of which follows from the written rules.
pub fn worked_figures() -> usize
    ensures count { result ≡ length table }
    ensures hold { AllByRecursion Holds table }
{
    12
}

#[cfg(test)]
mod tests;
