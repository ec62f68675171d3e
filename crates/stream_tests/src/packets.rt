//! What a stream of packets tells is next.
use pv_binary::write_into;
use pv_value::NoMemory;
use rl_packet::{Packet, packet_value};
use rl_stream::{Next, Stream};
use std::alloc::Global;
use std::test::Fail;

fn is_waiting(next: Next) -> bool {
    match next {
        Next::Waits => true,
        _ => false,
    }
}

fn is_whole(next: Next, count: usize) -> bool {
    match next {
        Next::Whole(_, size) => size == count,
        _ => false,
    }
}

fn is_bad_at(next: Next, at: u64) -> bool {
    match next {
        Next::BadBytes(_, place) => place == at,
        _ => false,
    }
}

/// Whether a record of so many bytes comes whole with its last byte, one byte after another.
fn comes_long(alloc: Global, count: usize) -> Result<bool, NoMemory> {
    let mut stream = Stream::new(alloc);
    stream.add(&[0xb4])?;
    for _ in 2..count {
        stream.add(&[0x80])?;
        if !is_waiting(stream.first(alloc)?) {
            return Ok(false);
        }
    }
    stream.add(&[0x84])?;
    Ok(is_whole(stream.first(alloc)?, count))
}

/// A stream of `#f` and what is no value, of which the first byte is read.
fn read_first(alloc: Global) -> Result<Stream, NoMemory> {
    let mut stream = Stream::new(alloc);
    stream.add(&[0x80, 0xff])?;
    stream.read_off(1);
    Ok(stream)
}

fn is_bad_behind(alloc: Global) -> Result<bool, NoMemory> {
    let mut stream = read_first(alloc)?;
    Ok(stream.left() == 1 && is_bad_at(stream.first(alloc)?, 1))
}

#[test]
fn packets_come_byte_by_byte(rt: HostRuntime) -> Result<(), Fail> {
    assert!(rt; comes_long(rt.alloc(), 262_144)?);
    assert!(rt; is_bad_behind(rt.alloc())?);
    Ok(())
}

/// `[[0 <A "ab" 1>] [1 <R 1>] [2 <M #{1 2}>]] <x> #f [] [[0 <S #:[0 3]>]]`, each in its one
/// spelling.
const PACKETS: [u8; 76] = [
    0xb5, 0xb5, 0xb0, 0, 0xb4, 0xb3, 1, 0x41, 0xb1, 2, 0x61, 0x62, 0xb0, 1, 1, 0x84, 0x84, 0xb5,
    0xb0, 1, 1, 0xb4, 0xb3, 1, 0x52, 0xb0, 1, 1, 0x84, 0x84, 0xb5, 0xb0, 1, 2, 0xb4, 0xb3, 1, 0x4d,
    0xb6, 0xb0, 1, 1, 0xb0, 1, 2, 0x84, 0x84, 0x84, 0x84, 0xb4, 0xb3, 1, 0x78, 0x84, 0x80, 0xb5,
    0x84, 0xb5, 0xb5, 0xb0, 0, 0xb4, 0xb3, 1, 0x53, 0x86, 0xb5, 0xb0, 0, 0xb0, 1, 3, 0x84, 0x84,
    0x84, 0x84,
];

/// A packet that was told, and how many bytes spell it.
fn told(next: Next) -> Option<(Packet, usize)> {
    match next {
        Next::Whole(packet, size) => Some((packet, size)),
        _ => None,
    }
}

/// The next packet is read off, and written behind the others; whether there was one.
fn copy_one(alloc: Global, stream: &mut Stream, copy: &mut Vec<u8>) -> Result<bool, NoMemory> {
    let Some((packet, size)) = told(stream.first(alloc)?) else {
        return Ok(false);
    };
    if size as u64 > stream.left() {
        return Ok(false);
    }
    stream.read_off(size);
    write_into(copy, &packet_value(alloc, &packet)?)?;
    Ok(true)
}

/// A piece comes, and all packets that are there are read off and written.
fn copy_all(
    alloc: Global,
    piece: &[u8],
    stream: &mut Stream,
    copy: &mut Vec<u8>,
) -> Result<(), NoMemory> {
    stream.add(piece)?;
    for _ in 0..6 {
        if !copy_one(alloc, stream, copy)? {
            return Ok(());
        }
    }
    Ok(())
}

/// Whether the packets come back, of pieces of so many bytes.
fn come_in_pieces(alloc: Global, count: usize) -> Result<bool, NoMemory> {
    let mut stream = Stream::new(alloc);
    let mut copy = Vec::new(alloc);
    for piece in PACKETS.chunks(count.max(1)) {
        copy_all(alloc, piece, &mut stream, &mut copy)?;
    }
    Ok(copy.as_slice() == PACKETS.as_slice() && stream.left() == 0)
}

/// Whether they come back, of two pieces, of which the first has so many bytes.
fn come_cut(alloc: Global, count: usize) -> Result<bool, NoMemory> {
    let mut stream = Stream::new(alloc);
    let mut copy = Vec::new(alloc);
    let cut = count.min(PACKETS.len());
    copy_all(alloc, &PACKETS[..cut], &mut stream, &mut copy)?;
    copy_all(alloc, &PACKETS[cut..], &mut stream, &mut copy)?;
    Ok(copy.as_slice() == PACKETS.as_slice() && stream.left() == 0)
}

fn come_cut_anywhere(alloc: Global) -> Result<bool, NoMemory> {
    for count in 0..PACKETS.len() {
        if !come_cut(alloc, count)? {
            return Ok(false);
        }
    }
    Ok(true)
}

#[test]
fn packets_come_in_any_pieces(rt: HostRuntime) -> Result<(), Fail> {
    assert!(rt; come_cut_anywhere(rt.alloc())?);
    assert!(rt; come_in_pieces(rt.alloc(), 1)?);
    assert!(rt; come_in_pieces(rt.alloc(), 2)?);
    assert!(rt; come_in_pieces(rt.alloc(), 7)?);
    Ok(())
}
