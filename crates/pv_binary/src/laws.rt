//! Laws of the binary form.
ghost use Rattle.std.specs.Prelude.{List, ◌++◌, ℕ, ◌≡◌};
ghost use Rattle.pv_value.specs.Plain.{Plain};
ghost use Rattle.pv_value.specs.WellFormed.{IsWellFormed};
ghost use Rattle.pv_binary.specs.Written.{written};
ghost use Rattle.pv_binary.specs.Spells.{Spells};
ghost use Rattle.pv_binary.specs.OneOfThree.{AreBytes, OneOfThreeHolds, ReadingTells};

/// What is written spells the value, and no spelling of a value begins another.
pub fn spellings_are_unique()
    ensures written { (v : Plain) → IsWellFormed v → Spells (written v) v }
    ensures unique { (a b x y : List ℕ) (v w : Plain) → Spells a v → Spells b w
        → a ++ x ≡ b ++ y → (a ≡ b) × (v ≡ w) }
{}

/// Bytes begin with a value, or are a front of one, or have one fault at one place, and only one of
/// the three.
pub fn one_of_three()
    ensures { (bytes : List ℕ) → AreBytes bytes → OneOfThreeHolds bytes }
{}

/// What the definition of reading gives, of a value, of a front and of a fault.
pub fn reading_tells()
    ensures { (bytes : List ℕ) → AreBytes bytes → ReadingTells bytes }
{}
