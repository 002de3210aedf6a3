ghost use Rattle.std.specs.Prelude.{◌≡◌};
ghost use Rattle.fault.specs.Numbers.{layer_number};

// The part of the engine that refused.
#[derive(Clone, Copy, PartialEq, Eq, Debug)]
pub enum Layer {
    Paper = 1,
    House = 2,
    Account = 3,
    Sharing = 4,
}

impl Layer {
    pub fn number(self) -> u8
        ensures { result ≡ layer_number self }
    {
        // A discriminant is read by `as`: `From<Layer>` would be this line in an impl that nobody asks for.
        self as u8
    }
}
