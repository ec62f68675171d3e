//! Values, packets and bytes of texts.
use pv_binary::write_into;
use pv_print::print_into;
use pv_text::{read_all, read_text};
use pv_value::Value;
use rl_packet::{Packet, packet_of};
use std::alloc::Global;
use std::test::Fail;

/// The value of a text.
pub(crate) fn value(alloc: Global, text: &str) -> Result<Value, Fail> {
    let (value, _) = read_text(alloc, text.as_bytes())?;
    Ok(value)
}

/// The packets of a text.
pub(crate) fn packets(alloc: Global, text: &str) -> Result<Vec<Packet>, Fail> {
    let values = read_all(alloc, text.as_bytes())?;
    let mut packets = Vec::new(alloc);
    for value in values.as_slice() {
        packets.push(packet_of(alloc, value)?)?;
    }
    Ok(packets)
}

/// The binary spellings of the values of a text, one behind the other.
pub(crate) fn bytes(alloc: Global, text: &str) -> Result<Vec<u8>, Fail> {
    let values = read_all(alloc, text.as_bytes())?;
    let mut bytes = Vec::new(alloc);
    for value in values.as_slice() {
        write_into(&mut bytes, value)?;
    }
    Ok(bytes)
}

/// The printed texts of the values of a text, a line each.
pub(crate) fn lines(alloc: Global, text: &str) -> Result<Vec<u8>, Fail> {
    let values = read_all(alloc, text.as_bytes())?;
    let mut lines = Vec::new(alloc);
    for value in values.as_slice() {
        print_into(&mut lines, value)?;
        lines.push(b'\n')?;
    }
    Ok(lines)
}
