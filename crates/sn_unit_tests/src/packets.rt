ghost use Rattle.std.specs.Prelude.{◌≢◌, ◌≤◌, ◌<◌, length, IfOk, OnOk, IsSome};
ghost use Rattle.sn_packet.specs.Packet.{highest_turn, most_packets, most_bytes};
ghost use Rattle.sn_packet.specs.Hold.{at_of, used_of};

use sn_packet::{Hold, MAX_TURN, Packet};
use std::alloc::{AllocError, Global};
use std::test::Fail;

/// A new packet's number and turn, whether it is worn, and its turn after it went up, where it isn't worn, and down again.
fn turned(alloc: Global, number: u32, turn: u64) -> Result<(u32, u64, bool, u64, u64), AllocError>
    requires number { number < most_packets }
    requires turn { turn ≤ highest_turn }
{
    let mut packet = Packet::new(alloc, number, turn)?;
    let was = (packet.number(), packet.turn(), packet.worn());
    if packet.worn() {
        return Ok((was.0, was.1, was.2, turn, turn));
    }
    packet.up();
    let up = packet.turn();
    packet.down();
    Ok((was.0, was.1, was.2, up, packet.turn()))
}

#[test]
fn a_packet_goes_up_until_it_is_worn(rt: HostRuntime) -> Result<(), Fail> {
    let last = MAX_TURN - 1;
    assert_eq!(rt; turned(rt.alloc(), 0, 0)?, (0, 0, false, 1, 0));
    assert_eq!(rt;
        turned(rt.alloc(), 16_383, last)?,
        (16_383, last, false, MAX_TURN, last)
    );
    assert_eq!(rt;
        turned(rt.alloc(), 7, MAX_TURN)?,
        (7, MAX_TURN, true, MAX_TURN, MAX_TURN)
    );
    Ok(())
}

/// Lays packets 3 and 4: two places, both used, with room for one more.
fn two_laid(alloc: Global, hold: &mut Hold) -> Result<(u32, u32), AllocError>
    ensures first { IfOk result (λ places. IsSome (used_of hold.new places.0)) }
    ensures second { IfOk result (λ places. IsSome (used_of hold.new places.1)) }
    ensures apart { IfOk result (λ places. places.0 ≢ places.1) }
    ensures room { OnOk result (1 ≤ hold.new.room) }
{
    let three = Packet::new(alloc, 3, 0)?;
    let four = Packet::new(alloc, 4, 0)?;
    hold.reserve(3)?;
    let first = hold.lay(three);
    let second = hold.lay(four);
    Ok((first, second))
}

#[test]
fn the_place_freed_last_is_taken_first(rt: HostRuntime) -> Result<(), Fail> {
    let mut hold = Hold::new(rt.alloc(), 0)?;
    let (first, second) = two_laid(rt.alloc(), &mut hold)?;
    hold.free(first);
    hold.free(second);
    assert_eq!(rt; hold.frees(), 2);
    assert_eq!(rt; hold.take_free(), Some(second));
    assert_eq!(rt; hold.take_free(), Some(first));
    assert_eq!(rt; hold.take_free(), None);
    Ok(())
}

/// The bytes of a packet, those of its copy without the last byte, and those of the packet once it is as many zeros.
fn rewritten(
    alloc: Global,
    hold: &mut Hold,
    place: u32,
    copy: u32,
    bytes: &[u8],
) -> Result<(Vec<u8>, Vec<u8>, Vec<u8>), AllocError>
    requires place { IsSome (at_of hold.old place) }
    requires copy { IsSome (at_of hold.old copy) }
    requires bytes { length bytes.now ≤ most_bytes }
{
    hold.fill(place, bytes);
    hold.copy(place, copy);
    let len = hold.packet(copy).bytes().len();
    if len > 0 {
        hold.cut(copy, len as u32 - 1);
    }
    let first = hold.packet(place).bytes().to_vec(alloc)?;
    let second = hold.packet(copy).bytes().to_vec(alloc)?;
    hold.zeros(place, len as u32);
    Ok((first, second, hold.packet(place).bytes().to_vec(alloc)?))
}

/// Whether `rewritten` gives these bytes.
fn rewrites(alloc: Global, bytes: &[u8], cut: &[u8], zeros: &[u8]) -> Result<bool, AllocError>
    requires { length bytes.now ≤ most_bytes }
{
    let mut hold = Hold::new(alloc, 0)?;
    let (place, copy) = two_laid(alloc, &mut hold)?;
    let (first, second, third) = rewritten(alloc, &mut hold, place, copy, bytes)?;
    Ok(first.as_slice() == bytes && second.as_slice() == cut && third.as_slice() == zeros)
}

#[test]
fn a_copy_is_cut_alone(rt: HostRuntime) -> Result<(), Fail> {
    assert!(rt; rewrites(rt.alloc(), b"", b"", b"")?);
    assert!(rt; rewrites(rt.alloc(), b"a", b"", &[0])?);
    assert!(rt; rewrites(rt.alloc(), b"abcd", b"abc", &[0, 0, 0, 0])?);
    Ok(())
}

#[test]
fn a_packet_is_laid_where_one_was_lifted_last(rt: HostRuntime) -> Result<(), Fail> {
    let mut hold = Hold::new(rt.alloc(), 0)?;
    let (first, second) = two_laid(rt.alloc(), &mut hold)?;
    let least = if first < second { first } else { second };
    assert_eq!(rt; hold.held_from(0), Some(least));
    let packet = hold.lift(first);
    assert_eq!(rt; packet.number(), 3);
    assert_eq!(rt; hold.held_from(0), Some(second));
    let place = hold.lay(packet);
    assert_eq!(rt; place, first);
    hold.free(place);
    hold.clear_free();
    assert_eq!(rt; (hold.frees(), hold.take_free()), (0, None));
    Ok(())
}
