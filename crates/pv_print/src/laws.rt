//! Laws of the printed text.
ghost use Rattle.std.specs.Prelude.{ℕ, List, false, [], length, ◌≤◌};
ghost use Rattle.pv_value.specs.Plain.{Plain};
ghost use Rattle.pv_value.specs.Depth.{depth};
ghost use Rattle.pv_value.specs.WellFormed.{IsWellFormed};
ghost use Rattle.pv_read.specs.Limits.{read_depth};
ghost use Rattle.pv_text.specs.Spells.{SpellsIn, TextSpells};
ghost use Rattle.pv_text.specs.Reads.{BeginsWith, AreValuesOf};
ghost use Rattle.pv_print.specs.Printed.{printed};
ghost use Rattle.pv_print.specs.Lines.{lines, AreReadable};

/// The printed text of a value spells it, and nests no deeper than the value.
pub fn printed_texts_spell()
    ensures spells { (v : Plain) → IsWellFormed v → TextSpells (printed v) v }
    ensures nesting { (v : Plain) (n : ℕ) → IsWellFormed v → depth v ≤ n
        → SpellsIn n false (printed v) v [] }
{}

/// The printed text of a value that nests no deeper than is read begins with that value, to its
/// end; and printed values, a line each, are the text of these values. What they begin with, and
/// are, is what the reader answers.
pub fn printed_texts_read_back()
    ensures one { (v : Plain) → IsWellFormed v → depth v ≤ read_depth
        → BeginsWith (printed v) (length (printed v)) v }
    ensures all { (vs : List Plain) → AreReadable vs → AreValuesOf (lines vs) vs }
{}
