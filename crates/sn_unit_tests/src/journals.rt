//! What no clause says: that calls succeed where there is memory, and that a cost and a text mean what they should.
ghost use Rattle.sn_journal.specs.JournalText.{line_of};
ghost use Rattle.sn_journal.specs.declared.entry.Entry.{Entry};
ghost use Rattle.sn_journal.specs.declared.fault.OutlineFault.TheVariants.{OutOfMemory};
ghost use Rattle.std.specs.Prelude.{IfErr, IfOk, IsTrue, map, ◌≡◌, ◌↔◌};

use sn_journal::{Entry, Journal, Line, OutlineFault, Payload, outline};
use std::alloc::Global;
use std::test::Fail;

/// A caller that tells one entry from all others by `==`.
fn begins_round(entry: &Entry, round: u32) -> bool
    ensures { IsTrue result ↔ (entry.now ≡ Entry.Round round) }
{
    *entry == Entry::Round(round)
}

#[test]
fn an_entry_costs_96_and_one_for_each_byte(rt: HostRuntime) -> Result<(), Fail> {
    let mut journal = Journal::new(rt.alloc());
    let bytes = Payload::of([1, 2, 3].to_vec(rt.alloc())?);
    let table = [
        (Entry::Round(1), 96),
        (Entry::Got(5, 0), 192),
        (Entry::Put(0, 0, 5, 1, bytes.copy(rt.alloc())?), 291),
        (Entry::Take(1, 0, 5, 1, bytes), 390),
        (Entry::Drain(1, 1, 5, 2), 486),
    ];
    assert_eq!(rt; journal.cost(), 0);
    for (entry, cost) in table {
        journal.reserve()?;
        journal.add(entry);
        assert_eq!(rt; journal.cost(), cost);
    }
    journal.reserve_more(2)?;
    journal.add(Entry::Dry);
    journal.add(Entry::Stop);
    assert_eq!(rt; journal.entries().len(), 7);
    assert!(rt; begins_round(&journal.entries()[0], 1));
    Ok(())
}

#[test]
fn copies_are_equal(rt: HostRuntime) -> Result<(), Fail> {
    let bytes = Payload::of([8, 9].to_vec(rt.alloc())?);
    let copied = bytes.copy(rt.alloc())?;
    assert!(rt; copied == bytes);
    assert_eq!(rt; copied.into_bytes().as_slice(), [8, 9].as_slice());
    let put = Entry::Put(2, 3, 5, 7, bytes);
    assert!(rt; put.copy(rt.alloc())? == put);
    Ok(())
}

/// A caller that prints a journal and reads the text back: it has the entries' lines, or there was no memory.
fn read_back(alloc: Global, journal: &Journal) -> Result<Vec<Line>, OutlineFault>
    ensures lines { IfOk result (λ lines. lines.items ≡ map line_of journal.now.entries) }
    ensures memory { IfErr result (λ fault. fault ≡ OutOfMemory) }
{
    let mut text = Vec::new(alloc);
    journal.print(&mut text)?;
    outline(alloc, &text)
}

#[test]
fn journal_text_is_printed_and_read_back(rt: HostRuntime) -> Result<(), Fail> {
    let mut journal = Journal::new(rt.alloc());
    for entry in [Entry::Round(1), Entry::Hear(6), Entry::Breath] {
        journal.reserve()?;
        journal.add(entry);
    }
    let mut text = b"before\n".to_vec(rt.alloc())?;
    journal.print(&mut text)?;
    assert_eq!(rt;
        text.as_slice(),
        b"before\nround 1\nhear 6\nbreath\n".as_slice()
    );
    assert_eq!(rt;
        outline(rt.alloc(), &text[7..])?.as_slice(),
        [Line::Round(1), Line::Hear(6), Line::Breath].as_slice()
    );
    Ok(())
}

#[test]
fn each_kind_of_entry_is_printed_and_read_back(rt: HostRuntime) -> Result<(), Fail> {
    let largest = u64::MAX;
    let bytes = Payload::of([1, 2, 3].to_vec(rt.alloc())?);
    let table: [(Entry, &[u8], Line); 22] = [
        (Entry::Round(100000), b"round 100000\n", Line::Round(100000)),
        (
            Entry::Hear(largest),
            b"hear 18446744073709551615\n",
            Line::Hear(largest),
        ),
        (Entry::Breath, b"breath\n", Line::Breath),
        (Entry::Attach(0, 4), b"attach 0 4\n", Line::Attach(0, 4)),
        (
            Entry::Unattached(15, 8, 8),
            b"unattached 15 8 8\n",
            Line::Unattached(15, 8, 8),
        ),
        (Entry::Detach(1, 5), b"detach 1 5\n", Line::Detach(1, 5)),
        (Entry::Reset(2), b"reset 2\n", Line::Reset(2)),
        (Entry::Seen(0, 1023), b"seen 0 1023\n", Line::Seen(0, 1023)),
        (
            Entry::Room(4294967295, 0),
            b"room 4294967295 0\n",
            Line::Room(4294967295, 0),
        ),
        (
            Entry::Put(0, 9, 7, 1, bytes.copy(rt.alloc())?),
            b"put 0 9 7 1 3\n",
            Line::Put(0, 9, 7, 1, 3),
        ),
        (
            Entry::Take(1, 10, 16383, 2, bytes),
            b"take 1 10 16383 2 3\n",
            Line::Take(1, 10, 16383, 2, 3),
        ),
        (
            Entry::Drain(0, 1, 0, 1),
            b"drain 0 1 0 1\n",
            Line::Drain(0, 1, 0, 1),
        ),
        (Entry::Got(5, 0), b"got 5 0\n", Line::Got(5, 0)),
        (Entry::Dry, b"dry\n", Line::Dry),
        (Entry::Gave(5, 1), b"gave 5 1\n", Line::Gave(5, 1)),
        (Entry::Full(6, 2), b"full 6 2\n", Line::Full(6, 2)),
        (
            Entry::Worn(3, 281474976710655),
            b"worn 3 281474976710655\n",
            Line::Worn(3, 281474976710655),
        ),
        (Entry::Spent, b"spent\n", Line::Spent),
        (Entry::Stop, b"stop\n", Line::Stop),
        (Entry::Close, b"close\n", Line::Close),
        (Entry::Reclaimed, b"reclaimed\n", Line::Reclaimed),
        (Entry::Restart, b"restart\n", Line::Restart),
    ];
    for (entry, printed, line) in table {
        let mut journal = Journal::new(rt.alloc());
        journal.reserve()?;
        journal.add(entry);
        let mut text = Vec::new(rt.alloc());
        journal.print(&mut text)?;
        assert_eq!(rt; text.as_slice(), printed);
        assert_eq!(rt;
            read_back(rt.alloc(), &journal)?.as_slice(),
            [line].as_slice()
        );
    }
    Ok(())
}

#[test]
fn the_first_line_out_of_form_is_told(rt: HostRuntime) -> Result<(), Fail> {
    let table: [(&[u8], u64); 16] = [
        (b"hear x\n", 1),
        (b"round 1\nhear 06\n", 2),
        (b"round 1\nhear 6\nbreath", 3),
        (b"round 1\n\nbreath\n", 2),
        (b"round  1\n", 1),
        (b" round 1\n", 1),
        (b"round 1 \n", 1),
        (b"round 1\r\n", 1),
        (b"round\n", 1),
        (b"breath 1\n", 1),
        (b"round +1\n", 1),
        (b"round 4294967296\n", 1),
        (b"hear 18446744073709551616\n", 1),
        (b"put 0 0 5 1\n", 1),
        (b"Round 1\n", 1),
        (b"breath\nworker 0\nhear x\n", 2),
    ];
    for (text, number) in table {
        match outline(rt.alloc(), text) {
            Ok(_) => assert!(rt; false, "no fault is told"),
            Err(fault) => assert_eq!(rt; fault, OutlineFault::Line(number)),
        }
    }
    assert_eq!(rt; outline(rt.alloc(), b"")?.len(), 0);
    Ok(())
}
