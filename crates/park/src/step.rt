// A step.
ghost use Rattle.std.specs.Prelude.{◌≡◌, ℕ, ◌≤◌, option_map};
ghost use Rattle.park.specs.Asks.{Steps, progress_from, progress_after, goes_to, opens_selector};
ghost use Rattle.park.specs.Controllers.{ready_at};
ghost use Rattle.park.specs.Sound.{StaysSound};
ghost use Rattle.park.specs.States.{of};
ghost use Rattle.park.specs.Stays.{NextFits};

use super::controller::Stage;
use super::names::Name;
use super::park::Park;
use super::within::{PlaceWithin, ProgressWithin};
use channel::channel::Channel;
use coins::Coins;
use terms::answer::Progress;
use terms::heard::{collect_heard, is_majority};
use terms::refusal::Refusal;
use terms::rules::{Heard, Next, test_and_set};
use terms::word::{Place, Word};

impl<C: Channel, K: Coins> Park<C, K> {
    // Controller p goes on from the phase that it has heard a majority in.
    pub fn step(&mut self, p: u32) -> Result<Progress, Refusal>
        ensures steps { Steps C.Channel K.Coins self.old p result self.new }
        ensures sound { StaysSound self.old self.new }
    {
        let p = self.find_up(p)?;
        let Some(at) = self.ready_place(p) else {
            return Err(Refusal::NotReady);
        };
        let progress = self.progress(p, at);
        self.advance(p, progress)
    }

    // Where controller p is ready.
    fn ready_place(&self, p: Name) -> Option<PlaceWithin>
        ensures { option_map (λ at. at.place) result ≡ ready_at self.now.majority (of self.now p.number) }
    {
        let c = self.roster.get(p);
        match c.stage {
            Stage::Asking(place) if is_majority(c.heard, self.head.majority) => {
                Some(PlaceWithin { place })
            }
            Stage::Uncalled | Stage::Asking(_) | Stage::Answered(_) => None,
        }
    }

    // What a step of controller p from this place comes to, by what it heard there.
    fn progress(&self, p: Name, at: PlaceWithin) -> ProgressWithin
        ensures { result.progress ≡ progress_from C.Channel K.Coins self.now p.number at.place }
    {
        let c = self.roster.get(p);
        let heard = collect_heard(self.head.n, c.heard, &c.words);
        self.progress_by(p, at, heard.as_heard())
    }

    fn progress_by(&self, p: Name, at: PlaceWithin, heard: Heard<'_>) -> ProgressWithin
        ensures { result.progress ≡ progress_after C.Channel K.Coins self.now p.number heard.entry.groups.now heard.entry.names.now at.place }
    {
        let Place {
            selector,
            round,
            phase,
        } = at.place;
        if phase == 1 {
            let place = Place {
                selector,
                round,
                phase: 2,
            };
            return ProgressWithin {
                progress: Progress::Opened(place, heard.word_of_phase_2()),
            };
        }
        let own = self.coins.draw_group(p.number, selector);
        let coin = self.coins.draw_coin(selector, round);
        let verdict = heard.verdict_of_phase_2(p.number, own, round, coin);
        self.opening_of(p, at, test_and_set(selector, round, verdict))
    }

    // The answer, or the phase that follows this place.
    fn opening_of(&self, p: Name, at: PlaceWithin, next: Next) -> ProgressWithin
        requires next { NextFits at.place next }
        ensures { result.progress ≡ goes_to C.Channel K.Coins self.now p.number at.place next }
    {
        match next {
            Next::Answer(answer) => ProgressWithin {
                progress: Progress::Answered(answer),
            },
            Next::Round(group) => ProgressWithin {
                progress: Progress::Opened(
                    Place {
                        selector: at.place.selector,
                        round: at.place.round + 1,
                        phase: 1,
                    },
                    Word {
                        group: Some(group),
                        name: None,
                    },
                ),
            },
            Next::Selector => self.opens_selector(p, at.place.selector + 1),
        }
    }

    // The first phase of a selector, which controller p opens with its own draw and its own name.
    pub(crate) fn opens_selector(&self, p: Name, selector: u8) -> ProgressWithin
        requires { (1 ≤ selector) × (selector ≤ 16) }
        ensures { result.progress ≡ opens_selector C.Channel K.Coins self.now p.number selector }
    {
        let place = Place {
            selector,
            round: 1,
            phase: 1,
        };
        let word = Word {
            group: Some(self.coins.draw_group(p.number, selector)),
            name: Some(p.number),
        };
        ProgressWithin {
            progress: Progress::Opened(place, word),
        }
    }
}
