//! What the gate's contracts say of a sum.
ghost use Rattle.gate_tests.specs.Sums.{RepliesAreSums};

/// Each reply of a legal history is the sum of a front of its steps. What a closing pass has seen
/// is one.
pub fn each_reply_is_the_sum_of_a_front()
    ensures { RepliesAreSums }
{}
