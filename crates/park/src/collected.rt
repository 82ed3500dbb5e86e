// What collecting tells.
use permit::permit::HeldPermit;

// The answer, and with the first collecting of a yes the permit.
#[derive(Debug)]
pub enum Collected {
    Yes(HeldPermit),
    No,
    Undecided,
}
