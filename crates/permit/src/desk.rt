// The part of a park that keeps its vehicle's number and the stage of its permit.
ghost use Rattle.std.specs.Prelude.{◌≡◌, Some};
ghost use Rattle.permit.specs.Acts.{new_desk};
ghost use Rattle.permit.specs.Examples.{ActsHold};
ghost use Rattle.permit.specs.Runs.{EveryRunSpendsOnce};
ghost use Rattle.permit.specs.Words.{stage_text};

use std::fmt;

#[derive(Clone, Copy, Debug, PartialEq, Eq)]
pub enum PermitStage {
    NotGiven,
    Held,
    Loaded,
    Dispatched,
    HandedBack,
}

impl fmt::Display for PermitStage {
    ghost output = { λ stage. Some (stage_text stage) };

    fn fmt<W: fmt::Write>(&self, f: &mut fmt::Formatter<W>) -> fmt::Result {
        f.write_str(match self {
            PermitStage::NotGiven => "not given",
            PermitStage::Held => "held",
            PermitStage::Loaded => "loaded",
            PermitStage::Dispatched => "dispatched",
            PermitStage::HandedBack => "handed back",
        })
    }
}

#[derive(Clone, Copy, Debug, PartialEq, Eq)]
pub struct Desk {
    pub(crate) vehicle: u32,
    pub(crate) stage: PermitStage,
}

impl Desk {
    #[tactic(auto, using(crate::proofs::SpentOnce::every_run_spends_once))]
    pub fn new(vehicle: u32) -> Desk
        ensures fresh { result ≡ new_desk vehicle }
        ensures law { EveryRunSpendsOnce result }
        ensures examples { ActsHold }
    {
        Desk {
            vehicle,
            stage: PermitStage::NotGiven,
        }
    }

    pub fn vehicle(&self) -> u32
        ensures { result ≡ self.now.vehicle }
    {
        self.vehicle
    }

    pub fn stage(&self) -> PermitStage
        ensures { result ≡ self.now.stage }
    {
        self.stage
    }
}
