//! A law of configurations.
ghost use Rattle.std.specs.Prelude.{◌≡◌, ℕ, List};
ghost use Rattle.pv_binary.specs.OneOfThree.{AreBytes};
ghost use Rattle.sc_events.specs.declared.inputs.Form.TheVariants.{Text};
ghost use Rattle.sc_schema.specs.Firsts.{HasFirstVerdict};
ghost use Rattle.sc_config.specs.Courses.{Course};
ghost use Rattle.sc_config.specs.Configs.{IsCourseOf};

use sc_events::one_reading;
use sc_schema::one_first_schema;

/// A text has at most one course as a configuration: it sets one schema and one list of steps, or
/// is refused for one cause. It has some where the text that its first value gives, if any, is a
/// schema or is refused.
pub fn one_configuration()
    ensures some { (text : List ℕ) → AreBytes text → HasFirstVerdict Text text
        → (c : Course) × IsCourseOf text c }
    ensures one { (text : List ℕ) (c d : Course)
        → IsCourseOf text c → IsCourseOf text d → c ≡ d }
{
    one_reading();
    one_first_schema();
}
