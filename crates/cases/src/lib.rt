// The marked cases: a table of worked examples of the rules, and the statement that every row holds.
#![tactic(auto)]

ghost use Rattle.std.specs.Prelude.{◌≡◌, length};
ghost use Rattle.std.specs.List.{AllByRecursion};
ghost use Rattle.cases.specs.Cases.{Holds, table};
ghost use Rattle.cases.specs.Further.{RowHolds, table as further};

// How many rows the table has; the contract says that each of them follows from the definitions.
pub fn marked_cases_hold() -> u8
    ensures rows { result ≡ length table }
    ensures hold { AllByRecursion Holds table }
{
    10
}

// How many rows the table of further examples has; the contract says that each of them follows from the definitions.
pub fn further_examples_hold() -> u8
    ensures rows { result ≡ length further }
    ensures hold { AllByRecursion RowHolds further }
{
    8
}
