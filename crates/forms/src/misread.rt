ghost use Rattle.std.specs.Prelude.{◌≡◌};
ghost use Rattle.fault.specs.Numbers.{fault_of};
ghost use Rattle.fault.specs.declared.place.Place.TheVariants.{Text};
ghost use Rattle.fault.specs.declared.reason.Reason.TheVariants.{MalformedLine};

use fault::place::Place;
use fault::reason::Reason;
use fault::refusal::Fault;

// Where a line stops being one of its form. Lines and columns count from 1.
#[derive(Clone, Copy, PartialEq, Eq, Debug)]
pub struct Misread {
    pub line: usize,
    pub column: usize,
}

impl From<Misread> for Fault {
    ghost from_gives = { λ misread fault. fault ≡ fault_of MalformedLine (Text misread.line misread.column) };

    fn from(misread: Misread) -> Fault {
        let Misread { line, column } = misread;
        Fault::new(Reason::MalformedLine, Place::Text { line, column })
    }
}
