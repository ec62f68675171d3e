//! Where the first value of some bytes ends.
use pv_binary::BinKind;
use pv_stream::{Scan, scan};

/// `#{1 1}` twice over, cut off behind so many bytes.
fn repeated(count: usize) -> Scan {
    let bytes: [u8; 10] = [0xb6, 0xb0, 1, 1, 0xb0, 1, 1, 0x84, 0xb6, 0x84];
    scan(&bytes[..count.min(10)])
}

#[test]
fn a_set_that_repeats_is_whole(rt: HostRuntime) {
    assert!(rt; repeated(10) == Scan::Whole(8));
    assert!(rt; repeated(7) == Scan::Part);
}

/// So many sequences, one inside another.
fn nested(count: usize) -> Scan {
    let bytes = [0xb5u8; 65];
    scan(&bytes[..count.min(65)])
}

#[test]
fn sixty_five_levels_are_too_deep(rt: HostRuntime) {
    assert!(rt; nested(64) == Scan::Part);
    assert!(rt; nested(65) == Scan::Fault(BinKind::TooDeep, 64));
}
