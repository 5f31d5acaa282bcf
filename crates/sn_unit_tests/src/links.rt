use sn_link::{Link, LinkCounts};
use std::test::Fail;

#[test]
fn link_counts_full_and_hands_the_next_place_back(rt: HostRuntime) -> Result<(), Fail> {
    let mut link = Link::new(rt.alloc())?;
    for place in 0..1023_u32 {
        assert_eq!(rt; link.transmit(place, 60), None);
    }
    let full = link.counts();
    assert_eq!(rt;
        (full.txpackets, full.txbytes, full.txdrop),
        (1023, 61_380, 0)
    );
    assert_eq!(rt; link.transmit(1023, 60), Some(1023));
    let dropped = link.counts();
    assert_eq!(rt;
        (dropped.txpackets, dropped.txbytes, dropped.txdrop),
        (1023, 61_380, 1)
    );
    Ok(())
}

#[test]
fn packets_are_received_in_the_order_of_sending_and_counted(rt: HostRuntime) -> Result<(), Fail> {
    let mut link = Link::of_row(rt.alloc(), 7)?;
    assert_eq!(rt; (link.row(), link.front(), link.receive()), (7, None, None));
    assert_eq!(rt; link.counts(), LinkCounts::new());
    // Places, and the lengths of the packets there.
    let sent = [(5, 60), (3, 1514), (5, 0), (0, 10_240)];
    for (place, len) in sent {
        assert_eq!(rt; link.transmit(place, len), None);
    }
    assert_eq!(rt; (link.nreadable(), link.nwritable()), (4, 1019));
    for (place, _) in sent {
        assert_eq!(rt; (link.front(), link.receive()), (Some(place), Some(place)));
    }
    let counts = LinkCounts {
        rxpackets: 4,
        rxbytes: 11_814,
        txpackets: 4,
        txbytes: 11_814,
        txdrop: 0,
    };
    assert_eq!(rt; (link.receive(), link.counts()), (None, counts));
    Ok(())
}
