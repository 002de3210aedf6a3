ghost use Rattle.std.specs.Prelude.{◌≡◌, ℕ, List, length};
ghost use Rattle.sharing.specs.Rule.{Fair, Title};
ghost use Rattle.sharing.specs.Refusal.{refusal, answer, placed};

use fault::refusal::Fault;

// Who gets the odd units when a total is shared by weight.
pub trait Sharing {
    // The shares of a total by weights.
    ghost shares: { Self → ℕ → List ℕ → List ℕ };

    ghost titled: { Self → List ℕ };

    // Writes each claimant's share to the front of the place, which is the caller's: a rule asks for no memory.
    fn share(&self, total: u32, weights: &[u32], place: &mut [u32]) -> Result<(), Fault>
        ensures value { result ≡ answer (refusal total weights.now (length place.old)) tt }
        ensures after { place.new ≡ placed (refusal total weights.now (length place.old)) (shares self.now total weights.now) place.old };

    fn title(&self) -> &str
        ensures { result.now ≡ titled self.now };

    ghost fair: { (rule : Self) → Fair (shares rule) };

    ghost named: { (rule : Self) → Title (titled rule) };
}
