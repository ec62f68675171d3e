//! The laws of inputs.
ghost use Rattle.std.specs.Prelude.{◌≡◌, ℕ, Bool, List, ◌++◌};
ghost use Rattle.pv_value.specs.Plain.{Plain};
ghost use Rattle.pv_binary.specs.OneOfThree.{AreBytes};
ghost use Rattle.sc_events.specs.Limits.{most_input};
ghost use Rattle.sc_events.specs.declared.inputs.Form.{Form};
ghost use Rattle.sc_events.specs.Readings.{AreReadAs};
ghost use Rattle.sc_events.specs.SoFar.{AreSoFar};
ghost use Rattle.sc_events.specs.declared.inputs.Values.{Values};

use crate::inputs::INPUT_BYTES;
use pv_binary::{one_of_three, spellings_are_unique};
use pv_text::texts_are_read_one_way;

/// An input is read in one way: it is one list of values, or goes on with none after one list.
/// Behind the values that are read so far it is read on in some way.
pub fn one_reading()
    ensures some { (form : Form) (bytes : List ℕ) → AreBytes bytes
        → (vs : List Plain) × (whole : Bool) × AreReadAs form bytes vs whole }
    ensures one { (form : Form) (bytes : List ℕ) (vs ws : List Plain) (a b : Bool)
        → AreReadAs form bytes vs a → AreReadAs form bytes ws b → (vs ≡ ws) × (a ≡ b) }
    ensures on { (form : Form) (bytes : List ℕ) (vs : List Plain) (values : Values)
        → AreBytes bytes → AreSoFar form bytes vs values
        → (ws : List Plain) × (whole : Bool) × AreReadAs form bytes (vs ++ ws) whole }
{
    spellings_are_unique();
    one_of_three();
    texts_are_read_one_way();
}

/// The limit is the one that the definitions have.
pub fn limit_is_as_defined()
    ensures { INPUT_BYTES ≡ most_input }
{}
