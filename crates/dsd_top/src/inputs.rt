//! The input of a command.
ghost use Rattle.std.specs.Prelude.{◌≡◌, ◌≤◌, ◌+◌, true, vec_len, IfOk, IfSome, IsErrOf, OnOk};
ghost use Rattle.out_ports.specs.Ports.{Rose};
ghost use Rattle.out_ports.specs.declared.streams.ReadFault.TheVariants as reading;
ghost use Rattle.sc_events.specs.Limits.{most_input};
ghost use Rattle.dsd_top.specs.Inputs.{kept_of};

use out_ports::ports::Source;
use out_ports::streams::{ReadFault, read_kept};
use sc_events::INPUT_BYTES;
use std::alloc::Global;

/// Reads the input to its end, and keeps as much as decides what comes of it: so an input that is
/// too long takes no more memory than one byte over the limit does.
pub fn read_input<I: Source>(alloc: Global, input: &mut I) -> Result<Vec<u8>, ReadFault>
    ensures content { IfOk result (λ kept. IfSome (I.left input.old) (λ bytes.
        kept.items ≡ kept_of bytes)) }
    ensures size { IfOk result (λ kept. vec_len kept ≤ most_input + 1) }
    ensures at_end { OnOk result (I.ended input.new ≡ true) }
    ensures lasting { I.faults input.old ≤ I.faults input.new }
    ensures cause { IsErrOf result reading.Failed →
        Rose (I.faults input.old) (I.faults input.new) }
{
    read_kept(alloc, input, INPUT_BYTES + 1)
}
