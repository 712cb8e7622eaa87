//! `RegionRow`: the row of a region, as the table keeps it.

ghost use Rattle.std.specs.Prelude.{◌≡◌, ◌+◌, ◌<◌, Some, None};

use crate::region_data::RegionData;
use std::marker::Model;

/// The data of a region in 24 bytes.
///
/// A contract sees a row as the data.
#[derive(Drop)]
pub struct RegionRow {
    partial: u32,
    live: u32,
    destination: u64,
    count: u32,
    /// The source, counted from 1; 0 for none.
    source: u32,
}

impl Model for RegionRow {
    ghost use Rattle.summary.specs.declared.region_data.RegionData.{RegionData};
    ghost use Rattle.summary.specs.RegionRow.{source_of};

    ghost Value = { RegionData };

    ghost view = { λ r. record { partial = r.partial; live = r.live; destination = r.destination; count = r.count; source = source_of r.source } };
}

impl RegionRow {
    /// The row of a region whose source isn't known yet.
    pub(crate) fn without_source(region: RegionData) -> RegionRow
        requires { region.source ≡ None }
        ensures { result ≡ region }
    {
        RegionRow {
            partial: region.partial,
            live: region.live,
            destination: region.destination,
            count: region.count,
            source: 0,
        }
    }

    /// Sets the source.
    pub(crate) fn set_source(&mut self, source: u32)
        requires { source < 4294967295 }
        ensures { self.new ≡ record self.old { source = Some source } }
    {
        self.source = source + 1;
    }

    pub(crate) fn to_data(&self) -> RegionData
        ensures { result ≡ self.now }
    {
        RegionData {
            partial: self.partial,
            live: self.live,
            destination: self.destination,
            count: self.count,
            source: self.source(),
        }
    }

    pub(crate) fn destination(&self) -> u64
        ensures { result ≡ self.now.destination }
    {
        self.destination
    }

    pub(crate) fn source(&self) -> Option<u32>
        ensures { result ≡ self.now.source }
    {
        match self.source {
            0 => None,
            counted => Some(counted - 1),
        }
    }

    /// All live words of the region.
    pub(crate) fn words(&self) -> u64
        ensures { result ≡ self.now.partial + self.now.live }
    {
        u64::from(self.partial) + u64::from(self.live)
    }
}
