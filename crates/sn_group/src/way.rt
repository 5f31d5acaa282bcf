//! The way round the cells, from a cursor on.

ghost use Rattle.std.specs.Prelude.{◌≡◌, ◌<◌};
ghost use Rattle.sn_group.specs.Scans.{around};

/// The cell that is `k` further than `start`.
pub fn place(cells: usize, start: usize, k: usize) -> usize
    requires start { start < cells }
    requires k { k < cells }
    ensures place { result ≡ around cells start k }
    ensures within { result < cells }
{
    let behind = cells - start;
    if k < behind { start + k } else { k - behind }
}
