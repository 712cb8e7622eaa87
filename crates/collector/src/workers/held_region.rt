ghost use Rattle.std.specs.Prelude.{◌≡◌};

use box_row::InRow;
use claim_board::RegionTicket;
use raw_region::Region;

/// A region that was claimed, with the ticket from which nothing was opened. The ticket is given up if nobody takes it.
pub(crate) struct HeldRegion {
    pub(crate) ticket: RegionTicket,
    pub(crate) region: Box<Region, InRow>,
}

impl Drop for HeldRegion {
    fn drop(self) {
        let Self { ticket, region } = self;
        ticket.give_up();
    }
}

impl HeldRegion {
    /// The ticket and the region.
    pub(crate) fn take(self) -> (RegionTicket, Box<Region, InRow>)
        ensures { (result.0 ≡ self.ticket) × (result.1 ≡ self.region) }
    {
        let Self { ticket, region } = self;
        (ticket, region)
    }
}
