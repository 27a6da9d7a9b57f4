//! The interface of a stage: where a search may look, and in which unit.
ghost use Rattle.std.specs.Prelude.{◌≡◌, ℕ, ◌≤◌, true};
ghost use Rattle.settings.specs.declared.setups.Setup.{Setup as Settings};
ghost use Rattle.cost.specs.declared.candidates.Candidate.{Candidate};
ghost use Rattle.cost.specs.Rating.{is_priced};
ghost use Rattle.pattern.specs.Offsets.{Within};
ghost use Rattle.window.specs.Windows.{Window, in_quarters, inside, quartered};

use rate::Vector;
use settings::Setup;

/// A stage of a search. Nothing that is asked alters it.
pub trait Stage {
    /// The windows of its pictures.
    ghost window: { Self → Window };

    /// What its candidates are priced with.
    ghost setup: { Self → Settings };

    /// What its candidates are priced with.
    fn setup(&self) -> &Setup
        ensures { result.now ≡ setup self.now };

    /// Whether a picture may be named.
    fn names(&self, picture: usize) -> bool
        ensures { result ≡ (window self.now).named picture };

    /// The centre of a picture's window.
    fn centre(&self, picture: usize) -> Vector
        ensures { result ≡ (window self.now).centre picture };

    /// How far a component may be from that of the centre.
    fn reach(&self) -> u8
        ensures { result ≡ (window self.now).reach };

    /// A vector of the stage in quarter samples.
    fn quarters(&self, vector: Vector) -> Vector
        requires { Within 4416 vector }
        ensures { result ≡ in_quarters (window self.now) vector };

    /// A vector's unit is a whole sample at most.
    ghost fine: { (s : Self) → (window s).scale ≤ 4 };

    /// No window reaches further than 64.
    ghost narrow: { (s : Self) → (window s).reach ≤ 64 };

    /// Centres are from -4,352 to 4,352.
    ghost central: { (s : Self) (r : ℕ) → Within 4352 ((window s).centre r) };

    /// Every candidate inside the window of a picture that may be named has a price.
    ghost priced: { (s : Self) (c : Candidate) → (window s).named c.picture ≡ true → inside (window s) c.picture c.vector ≡ true → is_priced (setup s) (quartered (window s) c) ≡ true };
}
