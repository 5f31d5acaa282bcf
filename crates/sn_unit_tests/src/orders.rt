//! What no clause says: that orders come where there is memory. The orders of small networks show what the definition means.
use sn_names::{LinkSpec, Name};
use sn_order::{pull_order, push_order};
use std::alloc::Global;
use std::test::Fail;

/// The names that a text has, one space between two.
fn names_of(alloc: Global, text: &str) -> Result<Vec<Name>, Fail> {
    let mut names = Vec::new(alloc);
    for word in text.split(' ') {
        names.push(Name::parse(alloc, word.as_bytes())?)?;
    }
    Ok(names)
}

/// The links that lines have.
fn links_of(alloc: Global, text: &str) -> Result<Vec<LinkSpec>, Fail> {
    let mut links = Vec::new(alloc);
    for line in text.lines() {
        links.push(LinkSpec::parse(alloc, line.as_bytes())?)?;
    }
    Ok(links)
}

/// Whether apps that are linked so are pushed in this order.
fn are_pushed(alloc: Global, apps: &str, links: &str, wanted: &str) -> Result<bool, Fail> {
    let order = push_order(alloc, &names_of(alloc, apps)?, &links_of(alloc, links)?)?;
    Ok(order == names_of(alloc, wanted)?)
}

#[test]
fn pulls_go_by_name(rt: HostRuntime) -> Result<(), Fail> {
    let alloc = rt.alloc();
    let order = pull_order(alloc, &names_of(alloc, "c a b")?)?;
    assert!(rt; order == names_of(alloc, "a b c")?);
    let order = pull_order(alloc, &names_of(alloc, "b B a1 a_ a")?)?;
    assert!(rt; order == names_of(alloc, "B a a1 a_ b")?);
    Ok(())
}

#[test]
fn pushes_go_downstream_and_the_least_name_breaks_a_ring(rt: HostRuntime) -> Result<(), Fail> {
    let alloc = rt.alloc();
    assert!(rt; are_pushed(alloc, "a b c", "b.o -> a.i\na.o -> b.i", "c a b")?);
    assert!(rt; are_pushed(alloc, "a b c", "c.o -> b.i\nb.o -> a.i", "c b a")?);
    assert!(rt; are_pushed(alloc, "a b", "a.o -> a.i\nb.o -> a.j", "b a")?);
    assert!(rt;
        are_pushed(
            alloc,
            "d c b a",
            "d.o -> a.i\nd.p -> a.j\na.o -> c.i\nc.o -> a.k",
            "b d a c"
        )?
    );
    Ok(())
}
