//! Why the status isn't 0.
ghost use Rattle.std.specs.Prelude.{◌≡◌};
ghost use Rattle.dsd_top.specs.Lines.{words_of, number_of};
ghost use Rattle.dsd_top.specs.Statuses.{status_of, from_script, from_input, from_read};
ghost use Rattle.dsd_top.specs.Statuses.{from_config, from_words};
ghost use Rattle.dsd_top.specs.declared.faults.Fault.TheVariants as fault;

use crate::minting::WordsFault;
use crate::schemas::ConfigFault;
use crate::values::InputFault;
use itoa::Buffer;
use out_ports::streams::{ReadFault, WriteFault};
use sc_script::ScriptFault;

/// Why the status isn't 0.
#[derive(Clone, Copy)]
pub enum Fault {
    BadInput(u64),
    BadWords,
    ReadFailed,
    WriteFailed,
    NoMemory,
    Limit(u8),
    BadConfig(u64),
}

impl Fault {
    pub(crate) fn status(self) -> u8
        ensures { result ≡ status_of self }
    {
        match self {
            Fault::BadInput(_) => 1,
            Fault::BadWords => 2,
            Fault::ReadFailed => 3,
            Fault::WriteFailed => 4,
            Fault::NoMemory => 5,
            Fault::Limit(_) => 6,
            Fault::BadConfig(_) => 7,
        }
    }

    /// The words of its line.
    pub(crate) fn words(self) -> &'static str
        ensures { result.now ≡ words_of self }
    {
        match self {
            Fault::BadInput(_) => "dsd: bad input at ",
            Fault::BadWords => "dsd: bad words",
            Fault::ReadFailed => "dsd: read failed",
            Fault::WriteFailed => "dsd: write failed",
            Fault::NoMemory => "dsd: out of memory",
            Fault::Limit(_) => "dsd: limit ",
            Fault::BadConfig(_) => "dsd: bad config at ",
        }
    }

    /// The number behind them, where there is one.
    pub(crate) fn number(self, buffer: &mut Buffer) -> &str
        ensures { result.now ≡ number_of self }
    {
        match self {
            Fault::BadInput(n) => buffer.format(n),
            Fault::Limit(limit) => buffer.format(limit),
            Fault::BadConfig(n) => buffer.format(n),
            _ => "",
        }
    }
}

impl From<ScriptFault> for Fault {
    ghost from_gives = { λ e f. f ≡ from_script e };

    fn from(fault: ScriptFault) -> Fault {
        match fault {
            ScriptFault::Bad(n) => Fault::BadInput(n),
            ScriptFault::Limit(limit) => Fault::Limit(limit),
            ScriptFault::Schema(n) => Fault::BadConfig(n),
            ScriptFault::NoMemory => Fault::NoMemory,
        }
    }
}

impl From<InputFault> for Fault {
    ghost from_gives = { λ e f. f ≡ from_input e };

    fn from(fault: InputFault) -> Fault {
        match fault {
            InputFault::Bad(n) => Fault::BadInput(n),
            InputFault::TooLong => Fault::Limit(1),
            InputFault::NoMemory => Fault::NoMemory,
        }
    }
}

impl From<ConfigFault> for Fault {
    ghost from_gives = { λ e f. f ≡ from_config e };

    fn from(fault: ConfigFault) -> Fault {
        match fault {
            ConfigFault::ReadFailed => Fault::ReadFailed,
            ConfigFault::Bad(n) => Fault::BadConfig(n),
            ConfigFault::NoMemory => Fault::NoMemory,
        }
    }
}

impl From<WordsFault> for Fault {
    ghost from_gives = { λ e f. f ≡ from_words e };

    fn from(fault: WordsFault) -> Fault {
        match fault {
            WordsFault::Bad => Fault::BadWords,
            WordsFault::NoMemory => Fault::NoMemory,
        }
    }
}

impl From<ReadFault> for Fault {
    ghost from_gives = { λ e f. f ≡ from_read e };

    fn from(fault: ReadFault) -> Fault {
        match fault {
            ReadFault::Failed => Fault::ReadFailed,
            ReadFault::NoMemory => Fault::NoMemory,
        }
    }
}

impl From<WriteFault> for Fault {
    ghost from_gives = { λ _ f. f ≡ fault.WriteFailed };

    fn from(_: WriteFault) -> Fault {
        Fault::WriteFailed
    }
}
