//! The laws over any number of runs, from the contracts of `run` and `run_spared` alone.
ghost use Rattle.pk_top.specs.Sessions.{KeptThroughRuns};
ghost use Rattle.pk_top.specs.SparedSessions.{KeptThroughSparedRuns};

/// Over any runs on a made drive, each stopped before or within any program or erase. After a run of `serve` the flash holds the
/// map after a prefix of its script that contains every command of which a byte was posted, and each record is by the map before
/// its command. After a run of `put`, `del`, `gen` or another question it holds a map that the word keeps. After any other run
/// it holds the same map as before. The next run begins from the map that is held. The limits of the namespaces are always those
/// that the drive was made with.
pub fn sessions()
    ensures { KeptThroughRuns }
{}

/// The same over a flash with spare blocks, with room for a log: over any runs of `run_spared` on a drive that was made there, each on what
/// the one before left of the inner flash, and each stopped where the inner flash shows a cut of the outer one.
pub fn spared_sessions()
    ensures { KeptThroughSparedRuns }
{}
