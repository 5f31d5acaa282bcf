//! Rows of names: a name's row is the first place where it stands.
ghost use Rattle.std.specs.Prelude.{◌≡◌, ◌<◌, ◌^◌, bytes_eq, length, position};
ghost use Rattle.sn_app.specs.Calls.{HasLink, HasName, row_of, row_of_link, same_link};

use sn_names::{FileName, LinkSpec, Name};

/// The first place of an app's or an interlink's name.
fn name_place(names: &[Name], name: &Name) -> Option<usize>
    ensures { result ≡ position (bytes_eq name.now) names.now }
{
    let wanted = name.as_str().as_bytes();
    names
        .iter()
        .position(|other| wanted == other.as_str().as_bytes())
}

/// The first place of a file's name.
fn file_place(names: &[FileName], name: &FileName) -> Option<usize>
    ensures { result ≡ position (bytes_eq name.now) names.now }
{
    let wanted = name.as_str().as_bytes();
    names
        .iter()
        .position(|other| wanted == other.as_str().as_bytes())
}

/// Whether two links have the same four names.
fn are_same(link: &LinkSpec, other: &LinkSpec) -> bool
    ensures { result ≡ same_link link.now other.now }
{
    link.from == other.from
        && link.out == other.out
        && link.to == other.to
        && link.input == other.input
}

/// The first place of a link.
fn link_place(links: &[LinkSpec], link: &LinkSpec) -> Option<usize>
    ensures { result ≡ position (same_link link.now) links.now }
{
    links.iter().position(|other| are_same(link, other))
}

/// The row of an app's or an interlink's name, which is one of these names: the first place where it stands, counted from 0.
pub fn name_row(names: &[Name], name: &Name) -> u32
    requires few { length names.now < 2 ^ 32 }
    requires there { HasName names.now name.now }
    ensures { result ≡ row_of names.now name.now }
{
    match name_place(names, name) {
        Some(row) => row as u32,
        None => unreachable!(),
    }
}

/// The row of a file's name, which is one of these names: the first place where it stands, counted from 0.
pub fn file_row(names: &[FileName], name: &FileName) -> u32
    requires few { length names.now < 2 ^ 32 }
    requires there { HasName names.now name.now }
    ensures { result ≡ row_of names.now name.now }
{
    match file_place(names, name) {
        Some(row) => row as u32,
        None => unreachable!(),
    }
}

/// The row of a link, which is one of these links: the first place where one with its four names stands, counted from 0.
pub fn link_spec_row(links: &[LinkSpec], link: &LinkSpec) -> u32
    requires few { length links.now < 2 ^ 32 }
    requires there { HasLink links.now link.now }
    ensures { result ≡ row_of_link links.now link.now }
{
    match link_place(links, link) {
        Some(row) => row as u32,
        None => unreachable!(),
    }
}
