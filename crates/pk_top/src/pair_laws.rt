//! The law over any number of runs of words on a pair, from the contract of `run_pair` alone.
ghost use Rattle.pk_top.specs.PairSessions.{PairKeptThroughRuns};

/// Over any runs of words on two drives of one shape, each board of each run stopped before or
/// within any program or erase. Each run leaves on the first its map or the one after its word, the
/// latter where a byte of its text was posted, and on the second a map, of which all namespaces but
/// the first are as they were; the next run begins from these, and resyncs: where no call fails
/// both drives then hold what its word makes of the first's map.
pub fn pair_sessions()
    ensures { PairKeptThroughRuns }
{}
