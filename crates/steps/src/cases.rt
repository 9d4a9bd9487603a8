// Worked cases.
ghost use Rattle.std.specs.Prelude.{◌≡◌, length};
ghost use Rattle.std.specs.List.{AllByRecursion};
ghost use Rattle.steps.specs.Cases.{cases, Holds};

// How many worked cases there are. Every one of them holds.
pub fn worked_cases() -> usize
    ensures count { result ≡ length cases }
    ensures hold { AllByRecursion Holds cases }
{
    8
}
