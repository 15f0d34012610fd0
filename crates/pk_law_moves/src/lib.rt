//! What reclaims make of the map that a flash holds, as laws over definitions alone: values are copied, and one commit of the
//! journal says so.
#![tactic(auto)]

ghost use Rattle.pk_law_moves.specs.Moves.{Copies, MovesLeaveMap, PlacesMove, PlacesStay, MovesCommit, MovesPair, MovesCommitted};
ghost use Rattle.pk_law_moves.specs.Victims.{LieInOthers, NoneLeft, OneIsSparse, FitOnePage, LeavesRoom};

/// A page that is copied to a block that nobody reads leaves the map.
pub fn copies()
    ensures { Copies }
{}

/// Entries that name copies of values leave the map, wherever the programs that commit them are cut.
pub fn moves()
    ensures moves { MovesLeaveMap }
    ensures places { PlacesMove }
    ensures stay { PlacesStay }
    ensures commit { MovesCommit }
    ensures pair { MovesPair }
    ensures committed { MovesCommitted }
{}

/// Before the moves and after them all values are in as many blocks, and after them none is in the
/// block that was reclaimed.
pub fn blocks()
    ensures others { LieInOthers }
    ensures none_left { NoneLeft }
{}

/// There is a block whose values can be moved by one commit of the journal, and every value has room
/// after their copies.
pub fn victims()
    ensures one_is_sparse { OneIsSparse }
    ensures one_page { FitOnePage }
    ensures room { LeavesRoom }
{}
