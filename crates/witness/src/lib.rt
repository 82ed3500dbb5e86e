// What the promise over runs supposes can be met. Each contract is one statement of this: that there is such a run, or how further rounds come about.
#![tactic(auto)]

ghost use Rattle.witness.specs.Piles.{ALongSelectorExists};
ghost use Rattle.witness.specs.Witnesses.{AFreshParkExists, ARunWithAYesAndAPermitExists, AllAnsweredCanBeMet, NeverStuckCanBeMet, RoundsCanGoOn};

use channel::channel::Channel;
use coins::Coins;

// Over any channel in which nothing waits and that has places enough, with any coins and any vehicle number, a park of 1 to 15 can be opened.
pub fn a_fresh_park_exists<C: Channel, K: Coins>()
    ensures { AFreshParkExists C.Channel K.Coins }
{}

// A run gives one permit, for a yes, and dispatches it.
pub fn a_run_with_a_yes_and_a_permit_exists<C: Channel, K: Coins>()
    ensures { ARunWithAYesAndAPermitExists C.Channel K.Coins }
{}

// In some run somebody called, nobody crashed and every caller holds yes or no: the promise then says that exactly one holds yes.
pub fn all_answered_can_be_met<C: Channel, K: Coins>()
    ensures { AllAnsweredCanBeMet C.Channel K.Coins }
{}

// In some run more than half are up and an up caller holds no answer: the promise then says that the run can go on.
pub fn never_stuck_can_be_met<C: Channel, K: Coins>()
    ensures { NeverStuckCanBeMet C.Channel K.Coins }
{}

// A selector goes on where some go with the coin and others with its opposite: the groups differ, so the next words are blank and one round more is opened.
pub fn rounds_can_go_on()
    ensures { RoundsCanGoOn }
{}

// Over a small channel, a run of three opens round 4 of a selector: the promise then says who spoke against the coin of round 2.
pub fn a_long_selector_exists()
    ensures { ALongSelectorExists }
{}
