//! The schemas of files.
ghost use Rattle.std.specs.Prelude.{◌≡◌, ◌≤◌, IfOk, IfErr, IsErrOf};
ghost use Rattle.out_ports.specs.Ports.{Rose};
ghost use Rattle.dsd_top.specs.Schemas.{IsSchemaWith, IsSchemaIn};
ghost use Rattle.dsd_top.specs.Works.{from_host, IsConfigFaultOf, IsTextFaultOf, refused_for};
ghost use Rattle.dsd_top.specs.declared.schemas.ConfigFault.TheVariants as fault;

use crate::words::Checking;
use out_ports::ports::{Host, HostFault};
use ps_read::{SchemaFault, read_schema};
use ps_schema::Schema;
use std::alloc::Global;
use thiserror::Error;

/// The most bytes of a file.
pub const FILE_BYTES: usize = 1_048_576;

/// Why a file and a name are no schema that knows the name.
#[derive(Clone, Copy, Debug, PartialEq, Eq, Error)]
pub enum ConfigFault {
    /// The file can't be read.
    #[error("the file can't be read")]
    ReadFailed,
    /// The file is too long, or is no schema from this value on, or doesn't know the name.
    #[error("bad config at {0}")]
    Bad(u64),
    #[error("out of memory")]
    NoMemory,
}

impl From<HostFault> for ConfigFault {
    ghost from_gives = { λ e f. f ≡ from_host e };

    fn from(fault: HostFault) -> ConfigFault {
        match fault {
            HostFault::Failed => ConfigFault::ReadFailed,
            HostFault::NoMemory => ConfigFault::NoMemory,
        }
    }
}

/// The schema of the file, which knows the name.
pub fn schema_of<H: Host>(
    alloc: Global,
    checking: &Checking,
    host: &mut H,
) -> Result<Schema, ConfigFault>
    ensures schema { IfOk result (IsSchemaIn (H.files host.old) checking.now) }
    ensures refused { IfErr result (IsConfigFaultOf (H.files host.old) checking.now) }
    ensures read_failed { IsErrOf result fault.ReadFailed →
        Rose (H.file_faults host.old) (H.file_faults host.new) }
    ensures same_host { (H.files host.new ≡ H.files host.old)
        × (H.address host.new ≡ H.address host.old)
        × (H.gave host.new ≡ H.gave host.old) × (H.stops host.new ≡ H.stops host.old) }
    ensures lasting { (H.file_faults host.old ≤ H.file_faults host.new)
        × (H.port_faults host.old ≤ H.port_faults host.new)
        × (H.faults host.old ≤ H.faults host.new) }
{
    let text = host.file(alloc, checking.file)?;
    schema_in(alloc, &text, checking.name.as_bytes())
}

/// The schema of a text, which knows the name.
fn schema_in(alloc: Global, text: &[u8], name: &[u8]) -> Result<Schema, ConfigFault>
    ensures schema { IfOk result (IsSchemaWith text.now name.now) }
    ensures refused { IfErr result (IsTextFaultOf text.now name.now) }
{
    if text.len() > FILE_BYTES {
        return Err(ConfigFault::Bad(0));
    }
    match read_schema(alloc, text) {
        Ok(schema) if schema.knows(name) => Ok(schema),
        Ok(_) => Err(ConfigFault::Bad(0)),
        Err(fault) => Err(refused(&fault)),
    }
}

/// Why a text is refused as a schema, with the number of the first value that can't stand.
fn refused(fault: &SchemaFault) -> ConfigFault
    ensures { result ≡ refused_for fault.now }
{
    match fault {
        SchemaFault::BadSchema(n) | SchemaFault::NotSupported(n) => ConfigFault::Bad(*n as u64),
        SchemaFault::NoMemory => ConfigFault::NoMemory,
        _ => ConfigFault::Bad(0),
    }
}
