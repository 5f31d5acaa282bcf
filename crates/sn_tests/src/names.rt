//! Each public function once, with ample memory, the faults of links, and the longest texts of each form.
use sn_names::*;
use std::alloc::{AllocError, Global};
use std::process::Abort;
use std::test::Fail;

/// A file's name.
pub fn file_name(alloc: Global, name: &str) -> Result<FileName, Fail> {
    match FileName::of(alloc, name.as_bytes()) {
        Ok(name) => Ok(name),
        Err(_) => Err("a file's name")?,
    }
}

/// The decimal of a number.
fn printed(alloc: Global, number: u64) -> Result<Vec<u8>, AllocError> {
    let mut printed = Vec::new(alloc);
    push_decimal(&mut printed, number)?;
    Ok(printed)
}

/// Expects that a number is printed so, and read again.
fn expect_decimal<R: Abort + AllocGlobal>(rt: &R, number: u64, digits: &[u8]) -> Result<(), Fail> {
    let found = printed(rt.alloc(), number)?;
    assert_eq!(rt; found.as_slice(), digits);
    assert_eq!(rt; decimal(digits, number), Some(number));
    Ok(())
}

#[test]
fn a_decimal_is_printed_and_read_again(rt: HostRuntime) -> Result<(), Fail> {
    expect_decimal(&rt, 0, b"0")?;
    expect_decimal(&rt, 1_048_576, b"1048576")?;
    assert_eq!(rt; decimal(b"1048576", 1_048_575), None);
    expect_decimal(&rt, 9_999_999_999, b"9999999999")
}

#[test]
fn the_longest_decimal_is_printed(rt: HostRuntime) -> Result<(), Fail> {
    let longest = printed(rt.alloc(), u64::MAX)?;
    assert_eq!(rt; longest.as_slice(), b"18446744073709551615".as_slice());
    Ok(())
}

#[test]
fn a_file_name_is_copied_printed_and_ordered(rt: HostRuntime) -> Result<(), Fail> {
    let first = file_name(rt.alloc(), "in.pcap")?;
    let second = first.copy(rt.alloc())?;
    assert_eq!(rt; second.as_str().as_bytes(), b"in.pcap".as_slice());
    assert!(rt; first == second);
    let later = file_name(rt.alloc(), "out.pcap")?;
    assert!(rt; first < later);
    Ok(())
}

#[test]
fn no_file_has_an_empty_name(rt: HostRuntime) {
    assert!(rt; FileName::of(rt.alloc(), b"").is_err());
}

/// A name.
pub fn name(alloc: Global, text: &str) -> Result<Name, Fail> {
    match Name::parse(alloc, text.as_bytes()) {
        Ok(name) => Ok(name),
        Err(_) => Err("a name")?,
    }
}

#[test]
fn names_are_read_copied_and_ordered(rt: HostRuntime) -> Result<(), Fail> {
    let first = name(rt.alloc(), "tap_0")?.copy(rt.alloc())?;
    assert_eq!(rt; first.as_str().as_bytes(), b"tap_0".as_slice());
    let later = name(rt.alloc(), "tap_1")?;
    assert!(rt; first < later);
    Ok(())
}

#[test]
fn an_argument_is_copied(rt: HostRuntime) -> Result<(), Fail> {
    let lane = Arg::Lane(name(rt.alloc(), "tap_0")?);
    let copied = lane.copy(rt.alloc())?;
    assert!(rt; copied == lane);
    Ok(())
}

#[test]
fn a_class_is_read_and_printed(rt: HostRuntime) {
    assert_eq!(rt; Class::of(b"PcapReader"), Some(Class::PcapReader));
    let word = Class::PcapReader.word().as_bytes();
    assert_eq!(rt; word, b"PcapReader".as_slice());
}

/// The canonical text of a link.
fn canonical_text(alloc: Global, link: &LinkSpec) -> Result<Vec<u8>, AllocError> {
    let mut canonical = Vec::new(alloc);
    let copied = link.copy(alloc)?;
    copied.canonical(&mut canonical)?;
    Ok(canonical)
}

/// Where a text stops being one of a link, or the link's canonical text.
fn link_or_fault(alloc: Global, text: &[u8]) -> Result<Result<Vec<u8>, usize>, AllocError> {
    match LinkSpec::parse(alloc, text) {
        Ok(link) => Ok(Ok(canonical_text(alloc, &link)?)),
        Err(NameFault::At(at)) => Ok(Err(at)),
        Err(NameFault::OutOfMemory) => Err(AllocError),
    }
}

/// Texts of links, with the first byte that no link has there.
const FAULTY: [(&[u8], usize); 4] = [
    (b"a.out - b.in", 7),
    (b"", 0),
    (b"a.out -> b", 10),
    (b"a.out -> b.in  x", 15),
];

#[test]
fn link_text_faults_are_found_at_their_first_byte(rt: HostRuntime) -> Result<(), Fail> {
    for (text, at) in FAULTY {
        let found = link_or_fault(rt.alloc(), text)?;
        assert_eq!(rt; found.err(), Some(at));
    }
    expect_link(&rt, b" a.out->b.in ", b"a.out -> b.in")
}

/// Expects that this is the text of a link with this canonical text.
fn expect_link<R: Abort + AllocGlobal>(rt: &R, text: &[u8], canonical: &[u8]) -> Result<(), Fail> {
    let Ok(found) = link_or_fault(rt.alloc(), text)? else {
        return Err("a link")?;
    };
    assert_eq!(rt; found.as_slice(), canonical);
    Ok(())
}

/// Expects that a file's name of so many bytes is taken and copied.
fn expect_file_name<R: Abort + AllocGlobal>(rt: &R, length: usize) -> Result<(), Fail> {
    let text = "f".repeat(rt.alloc(), length)?;
    let name = file_name(rt.alloc(), text.as_str())?.copy(rt.alloc())?;
    assert_eq!(rt; name.as_str().len(), length);
    Ok(())
}

#[test]
fn the_longest_names_are_read_where_there_is_memory(rt: HostRuntime) -> Result<(), Fail> {
    // 255 bytes are the most in a scenario, and 4,096 the most of a word.
    expect_file_name(&rt, 255)?;
    expect_file_name(&rt, 4096)?;
    let long = "n".repeat(rt.alloc(), 64)?;
    let copied = name(rt.alloc(), long.as_str())?.copy(rt.alloc())?;
    assert_eq!(rt; copied.as_str().len(), 64);
    Ok(())
}

/// An app and its port of 64 letters each.
fn long_port(alloc: Global) -> Result<Vec<u8>, AllocError> {
    [[b'n'; 64].as_slice(), b".", &[b'n'; 64]].concat(alloc)
}

/// The longest text of a link: a line of a scenario has 1,024 bytes at most, with `link` and a space
/// in front.
fn long_link(alloc: Global) -> Result<Vec<u8>, AllocError> {
    let port = long_port(alloc)?;
    [[b' '; 379].as_slice(), &port, b"->", &port, &[b' '; 380]].concat(alloc)
}

#[test]
fn the_longest_texts_are_read_where_there_is_memory(rt: HostRuntime) -> Result<(), Fail> {
    let text = long_link(rt.alloc())?;
    assert_eq!(rt; text.len(), 1024 - 5);
    let port = long_port(rt.alloc())?;
    let canonical = [port.as_slice(), b" -> ", &port].concat(rt.alloc())?;
    expect_link(&rt, &text, &canonical)
}
