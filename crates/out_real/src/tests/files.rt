//! Files of the machine.
use crate::RealHost;
use out_ports::ports::{FILE_READ, Host, HostFault};
use std::alloc::Global;
use std::net::{Net, TcpListener, TcpStream};
use std::rt::Files;
use std::test::Fail;
use std::time::Clock;

/// How many bytes of a file are given.
fn given<H: Host>(host: &mut H, alloc: Global, name: &str) -> Result<usize, HostFault> {
    let bytes = host.file(alloc, name)?;
    Ok(bytes.len())
}

/// An endless file is given up to the most that is read of one, an empty one whole, and one that
/// isn't there is a fault.
fn host_reads_files<Rt>(rt: &Rt, alloc: Global) -> bool
where
    Rt: Clock + Files + Net<Listener = TcpListener, Stream = TcpStream>,
{
    let mut host = RealHost::new(rt);
    let long = given(&mut host, alloc, "/dev/zero") == Ok(FILE_READ);
    let empty = given(&mut host, alloc, "/dev/null") == Ok(0) && host.file_faults() == 0;
    let none = given(&mut host, alloc, "/no/such/file") == Err(HostFault::Failed);
    long && empty && none && host.file_faults() == 1
}

#[test]
fn a_host_reads_files_of_the_machine(rt: HostRuntime) -> Result<(), Fail> {
    assert!(rt; host_reads_files(&rt, rt.alloc()));
    Ok(())
}
