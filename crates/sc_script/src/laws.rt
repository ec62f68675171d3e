//! Laws of scripts.
ghost use Rattle.std.specs.Prelude.{◌≡◌, ℕ, List};
ghost use Rattle.pv_binary.specs.OneOfThree.{AreBytes};
ghost use Rattle.rl_stream.specs.Nexts.{Decider};
ghost use Rattle.sc_events.specs.declared.inputs.Form.{Form};
ghost use Rattle.sc_schema.specs.Firsts.{HasFirstVerdict};
ghost use Rattle.sc_script.specs.Runs.{Course};
ghost use Rattle.sc_script.specs.Scripts.{IsCourseOf};

use sc_events::one_reading;
use sc_schema::one_first_schema;

/// An input has at most one course: it runs through one list of steps, or stops for one cause. It
/// has some where the text that its first value gives, if any, is a schema or is refused.
pub fn one_course()
    ensures some { (N : Decider) (form : Form) (bytes : List ℕ) → AreBytes bytes
        → HasFirstVerdict form bytes → (c : Course) × IsCourseOf N form bytes c }
    ensures one { (N : Decider) (form : Form) (bytes : List ℕ) (c d : Course)
        → IsCourseOf N form bytes c → IsCourseOf N form bytes d → c ≡ d }
{
    one_reading();
    one_first_schema();
}
