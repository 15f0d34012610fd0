//! The law over any number of sessions over an image and its log, from the contracts of `run` and of the log alone.
ghost use Rattle.pk_law_durable.specs.DurableRuns.{KeptThroughDurableRuns};

use pk_redo::each_prefix_is_a_cut;
use pk_top::laws::sessions;

/// Over any sessions on an image and its log that are read as a made drive, each on bytes that a crash of the one before may have
/// left of both: each keeps what `pk_top::laws::sessions` says, with every command of which a record was sent, and the bytes that
/// the last one left are read as a drive that holds the last map.
pub fn durable_sessions()
    ensures { KeptThroughDurableRuns }
{
    sessions();
    each_prefix_is_a_cut();
}
