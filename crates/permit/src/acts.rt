// The acts at the desk: it gives one permit, and takes back what it gave.
ghost use Rattle.std.specs.Prelude.{◌≡◌};
ghost use Rattle.permit.specs.Acts.{fits, Gives, Moves, Loads, Dispatches, HandsBack};

use super::desk::{Desk, PermitStage};
use super::permit::{Held, HeldPermit, Loaded, LoadedPermit, Permit};
use terms::refusal::Refusal;

// A refused permit comes back with the refusal.
#[derive(Debug)]
pub struct Returned<P> {
    pub refusal: Refusal,
    pub permit: P,
}

impl Desk {
    // The first time a permit for this vehicle, and ever after none.
    pub fn give(&mut self) -> Option<HeldPermit>
        ensures { Gives self.old result self.new }
    {
        let PermitStage::NotGiven = self.stage else {
            return None;
        };
        self.stage = PermitStage::Held;
        Some(Permit {
            vehicle: self.vehicle,
            state: Held,
        })
    }

    pub fn load(&mut self, permit: HeldPermit) -> Result<LoadedPermit, Returned<HeldPermit>>
        ensures { Loads self.old permit result self.new }
    {
        let vehicle = self.take(permit, PermitStage::Held, PermitStage::Loaded)?;
        Ok(Permit {
            vehicle,
            state: Loaded,
        })
    }

    pub fn dispatch(&mut self, permit: LoadedPermit) -> Result<(), Returned<LoadedPermit>>
        ensures { Dispatches self.old permit result self.new }
    {
        self.take(permit, PermitStage::Loaded, PermitStage::Dispatched)?;
        Ok(())
    }

    pub fn hand_back(&mut self, permit: HeldPermit) -> Result<(), Returned<HeldPermit>>
        ensures { HandsBack self.old permit result self.new }
    {
        self.take(permit, PermitStage::Held, PermitStage::HandedBack)?;
        Ok(())
    }

    // Takes a permit for this vehicle while the desk is at the one stage, and goes on to the next; gives the vehicle's number.
    fn take<S: Drop>(
        &mut self,
        permit: Permit<S>,
        stage: PermitStage,
        next: PermitStage,
    ) -> Result<u32, Returned<Permit<S>>>
        ensures { Moves (fits self.old permit.vehicle stage) permit permit.vehicle next self.old result self.new }
    {
        if self.vehicle != permit.vehicle || self.stage != stage {
            return Err(Returned {
                refusal: Refusal::Permit,
                permit,
            });
        }
        self.stage = next;
        let Permit { vehicle, state: _ } = permit;
        Ok(vehicle)
    }
}
