ghost use Rattle.std.specs.Prelude.{◌≡◌, []};
ghost use Rattle.claim_board.specs.Views.{IsPassView};

use crate::rule::Place;

/// One worker's access to a board. Contracts see two lists of calls: `seen`, a legal history known to
/// this pass, and `mine`, its own calls in it. The value takes no memory.
#[derive(Drop)]
pub struct Pass {
    pub(crate) place: Place,
    ghost single: { IsPassView place.me.0 },
    ghost bare: { place.table_id.slots ≡ 0 → place.me.1 ≡ [] },
}
