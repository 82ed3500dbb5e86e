// A permit that was given. It is held until it is loaded, and a loaded one can only be dispatched.
ghost use Rattle.std.specs.Prelude.{◌≡◌};

// A permit that can be loaded or handed back.
#[derive(Clone, Copy, Debug)]
pub struct Held;

// A permit that can only be dispatched.
#[derive(Clone, Copy, Debug)]
pub struct Loaded;

#[derive(Debug)]
pub struct Permit<S> {
    pub(crate) vehicle: u32,
    pub(crate) state: S,
}

pub type HeldPermit = Permit<Held>;

pub type LoadedPermit = Permit<Loaded>;

impl<S> Permit<S> {
    pub fn vehicle(&self) -> u32
        ensures { result ≡ self.now.vehicle }
    {
        self.vehicle
    }
}
