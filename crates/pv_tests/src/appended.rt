//! What a call appends to, stays in front.
use pv_binary::write_into;
use pv_canon::canon_into;
use pv_print::print_into;
use pv_value::{NoMemory, Value};
use std::alloc::Global;
use std::test::Fail;

/// The spelling of 256 behind a byte.
fn written_behind(alloc: Global) -> Result<bool, NoMemory> {
    let mut out = Vec::from_slice(alloc, &[7])?;
    write_into(&mut out, &Value::integer(256))?;
    Ok(out.as_slice() == [7u8, 0xb0, 2, 1, 0].as_slice())
}

#[test]
fn a_spelling_is_appended(rt: HostRuntime) -> Result<(), Fail> {
    assert!(rt; written_behind(rt.alloc())?);
    Ok(())
}

/// The canonical form of 256 behind a byte.
fn canonical_behind(alloc: Global) -> Result<bool, NoMemory> {
    let mut out = Vec::from_slice(alloc, &[7])?;
    canon_into(alloc, &mut out, &Value::integer(256))?;
    Ok(out.as_slice() == [7u8, 0xb0, 2, 1, 0].as_slice())
}

#[test]
fn a_canonical_form_is_appended(rt: HostRuntime) -> Result<(), Fail> {
    assert!(rt; canonical_behind(rt.alloc())?);
    Ok(())
}

/// 256 printed behind a byte.
fn printed_behind(alloc: Global) -> Result<bool, NoMemory> {
    let mut out = Vec::from_slice(alloc, b"#t")?;
    print_into(&mut out, &Value::integer(256))?;
    Ok(out.as_slice() == b"#t256".as_slice())
}

#[test]
fn a_text_is_appended(rt: HostRuntime) -> Result<(), Fail> {
    assert!(rt; printed_behind(rt.alloc())?);
    Ok(())
}
