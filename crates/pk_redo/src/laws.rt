//! Laws of logs and of images beside them.
ghost use Rattle.pk_redo.specs.Log.{ReadsOnce};
ghost use Rattle.pk_redo.specs.Steps.{StepsReadOnce};
ghost use Rattle.pk_redo.specs.Image.{ReplayIsAbsolute, EachPrefixIsACut};
ghost use Rattle.pk_redo.specs.Kept.{StillKeeps, EitherRead};
ghost use Rattle.pk_base.specs.Page.{Flash};

use crate::redo_log::RedoLog;
use sqlite_disk::Disk;

/// A log has one list of batches.
pub fn reads_once()
    ensures { ReadsOnce }
{}

/// Bytes are read as one list of steps.
pub fn steps_read_once()
    ensures { StepsReadOnce }
{}

/// Whatever a crash leaves after a call, it is read as the pages that were kept before the call, or
/// as all of them.
pub fn kept_is_read<D: Disk>(redo: &RedoLog<D>)
    ensures { (kept now : Flash) → StillKeeps D.Disk redo.now kept now
        → EitherRead D.Disk redo.now kept now }
{
    let _ = redo;
}

/// Replaying steps gives the same whatever the pages hold that they set.
pub fn replay_is_absolute()
    ensures { ReplayIsAbsolute }
{}

/// The pages after the first steps of a trail are a cut of it.
pub fn each_prefix_is_a_cut()
    ensures { EachPrefixIsACut }
{}
