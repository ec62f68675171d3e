//! Laws of the text form.
ghost use Rattle.std.specs.Prelude.{◌≡◌, ℕ, List};
ghost use Rattle.std.specs.Str.{IsUtf8};
ghost use Rattle.pv_read.specs.Results.{Fault};
ghost use Rattle.pv_lex.specs.declared.faults.TextKind.{TextKind};
ghost use Rattle.pv_lex.specs.declared.faults.TextKind.TheVariants.{BadUtf8};
ghost use Rattle.pv_text.specs.Stops.{TextStands};
ghost use Rattle.pv_text.specs.OneWay.{OneWayHolds};
ghost use Rattle.pv_text.specs.Reads.{ValuesStand};

/// In a text that is UTF-8 as a whole, everything quoted and bare is; so only a text that isn't is
/// refused as such, and then at its beginning.
pub fn text_is_judged_as_a_whole()
    ensures first { (text : List ℕ) (f : Fault TextKind) → TextStands text f → f.kind ≡ BadUtf8
        → (IsUtf8 text → ⊥) × (f.place ≡ 0) }
    ensures all { (text : List ℕ) (f : Fault TextKind) → ValuesStand text f → f.kind ≡ BadUtf8
        → (IsUtf8 text → ⊥) × (f.place ≡ 0) }
{}

/// There is one way to read the last bytes of a text: they are a gap alone, or begin with one value
/// before one rest, or stop at one fault, and only one of the three.
pub fn texts_are_read_one_way()
    ensures { (total : ℕ) (bytes : List ℕ) → OneWayHolds total bytes }
{}
