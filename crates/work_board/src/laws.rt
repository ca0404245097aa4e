//! What no board allows.
ghost use Rattle.work_board.specs.Laws.{StoreIsNoClaim};

/// A claim is one step: a load of the piece's word and then a store of 1 is allowed to no seat, as
/// another may have claimed and finished the piece between the two.
pub fn a_claim_is_one_step()
    ensures { StoreIsNoClaim }
{}
