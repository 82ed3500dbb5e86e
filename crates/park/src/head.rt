// What is fixed when a park opens.
ghost use Rattle.std.specs.Prelude.{◌≡◌, ℕ, ◌+◌, ◌/◌, ◌≤◌};

// Every open park has 1 to 15 controllers and carries its majority.
#[derive(Clone, Copy, Debug, PartialEq, Eq)]
pub struct Head {
    pub n: u8,
    pub majority: u8,
    ghost count: { (1 ≤ n) × (n ≤ 15) },
    ghost enough: { majority ≡ n / 2 + 1 },
}
