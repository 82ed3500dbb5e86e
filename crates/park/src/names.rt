// Names of controllers, and finding one by the number that a host gives.
ghost use Rattle.std.specs.Prelude.{◌≡◌, ℕ, ◌-◌, ◌<◌, ◌≤◌, true, false, Some, None, MatchOption, MatchResult};
ghost use Rattle.park.specs.Refusals.{name_refusal, no_such_name};
ghost use Rattle.park.specs.Sound.{Sound};

use super::park::Park;
use channel::channel::Channel;
use coins::Coins;
use terms::refusal::Refusal;

// The name of a controller, of the largest park at most.
// kept: that the name is at most n stays a clause where places or cells are counted by it, since n is the park's.
#[derive(Clone, Copy, Debug, PartialEq, Eq)]
pub(crate) struct Name {
    pub(crate) number: u8,
    ghost named: { (1 ≤ number) × (number ≤ 15) },
}

impl Name {
    // Where what belongs to this controller stands among that of all.
    pub(crate) fn index(self) -> usize
        ensures value { result ≡ self.number - 1 }
        ensures small { result < 15 }
    {
        self.number as usize - 1
    }
}

impl<C: Channel, K: Coins> Park<C, K> {
    // The name of a controller of the park that is up, or why there is none.
    pub(crate) fn find_up(&self, p: u32) -> Result<Name, Refusal>
        ensures found { MatchResult result (λ q. (q.number ≡ p) × (q.number ≤ self.now.n) × (name_refusal self.now p ≡ None)) (λ e. name_refusal self.now p ≡ Some e) }
        ensures sound { Sound self.now }
    {
        let p = self.find(p).ok_or(Refusal::Name)?;
        if !self.roster.get(p).up {
            return Err(Refusal::Down);
        }
        Ok(p)
    }

    // The name of a controller of the park.
    pub(crate) fn find(&self, p: u32) -> Option<Name>
        ensures found { MatchOption result (no_such_name self.now p ≡ true) (λ q. (q.number ≡ p) × (q.number ≤ self.now.n) × (no_such_name self.now p ≡ false)) }
        ensures sound { Sound self.now }
    {
        if p == 0 || p > self.head.n as u32 {
            None
        } else {
            Some(Name { number: p as u8 })
        }
    }
}
