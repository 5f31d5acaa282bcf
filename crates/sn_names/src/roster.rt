//! The names that a worker's rows are numbered by.
use crate::{FileName, LinkSpec, Name};
use std::marker::Model;

/// The names that a worker's rows are numbered by, in the order of the rows.
#[derive(Debug, Drop)]
pub struct Roster {
    /// The apps.
    pub apps: Vec<Name>,
    /// The links between them.
    pub links: Vec<LinkSpec>,
    /// The captures that are read.
    pub captures: Vec<FileName>,
    /// The files that are written.
    pub files: Vec<FileName>,
    /// The interlinks.
    pub lanes: Vec<Name>,
}

impl Model for Roster {
    ghost use Rattle.sn_names.specs.Rosters.{RosterRows};

    ghost Value = { RosterRows };

    ghost view = { λ r. record {
      apps = r.apps.items;
      links = r.links.items;
      captures = r.captures.items;
      files = r.files.items;
      lanes = r.lanes.items;
    } };
}
