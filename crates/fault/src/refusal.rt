ghost use Rattle.std.specs.Prelude.{◌≡◌};
ghost use Rattle.fault.specs.Numbers.{number, fault_of};

use crate::layer::Layer;
use crate::place::Place;
use crate::reason::Reason;

#[derive(Clone, Copy, PartialEq, Eq, Debug)]
pub struct Fault {
    pub reason: Reason,
    pub layer: Layer,
    pub place: Place,
}

impl Fault {
    // A refusal in the layer that its reason belongs to.
    pub fn new(reason: Reason, place: Place) -> Fault
        ensures { result ≡ fault_of reason place }
    {
        Fault {
            reason,
            layer: reason.layer(),
            place,
        }
    }

    pub fn number(self) -> u8
        ensures { result ≡ number self.reason }
    {
        self.reason.number()
    }
}
