//! What the steps of an engine make of the map that a flash holds: laws over the definitions alone, each the contract of a
//! function that does nothing. A drive's calls cite them, and unfold no reading.
#![tactic(auto)]

ghost use Rattle.pk_law_steps.specs.Reads.{ReadsUnder, UnderReads, Same, ProgramsUnread, Erases};
ghost use Rattle.pk_law_steps.specs.Stores.{Stores, Deletes, Fits};
ghost use Rattle.pk_law_steps.specs.Lookups.{LookupFinds, FoundIn, Counts};
ghost use Rattle.pk_law_steps.specs.Roots.{Commits, CommitsPair, Committed, FreezeLeavesMap};
ghost use Rattle.pk_law_steps.specs.Next.{Installed, Installs};
ghost use Rattle.pk_law_steps.specs.Freezing.{Frozen};
ghost use Rattle.pk_law_steps.specs.Merging.{Merged, MergedGrammar, MergedStill, Freed, FreedCounted};
ghost use Rattle.pk_law_steps.specs.Fitting.{OutputFits, QuotaFits};

/// A flash holds a map exactly if one is under its newest root.
pub fn reading()
    ensures under { ReadsUnder }
    ensures read { UnderReads }
{}

/// What is not read may change: erased pages may be programmed, blocks without a page that is read
/// may be erased, and at every cut the same is under the same root.
pub fn unread()
    ensures same { Same }
    ensures programs { ProgramsUnread }
    ensures erases { Erases }
{}

/// One more entry puts a value into the map, or takes a key out of it.
pub fn entries()
    ensures stores { Stores }
    ensures deletes { Deletes }
    ensures fits { Fits }
{}

/// The entry that counts says what the map has, and the entries that count say how much it holds.
pub fn lookups()
    ensures finds { LookupFinds }
    ensures found_in { FoundIn }
    ensures counts { Counts }
{}

/// A commit moves the pending entries into the newest epoch, and a freeze makes the newest epoch the older one.
pub fn roots()
    ensures commits { Commits }
    ensures pair { CommitsPair }
    ensures committed { Committed }
    ensures freezes { FreezeLeavesMap }
{}

/// A root that may follow the newest one does not change the map, at any cut of its install and
/// after it.
pub fn installs()
    ensures installed { Installed }
    ensures installs { Installs }
{}

/// The root after a freeze may follow.
pub fn freezes()
    ensures { Frozen }
{}

/// The root after a merge may follow, and blocks that it no longer names are read by nobody.
pub fn merges()
    ensures merged { Merged }
    ensures grammar { MergedGrammar }
    ensures still { MergedStill }
    ensures freed { Freed }
    ensures counted { FreedCounted }
{}

/// The output of a merge fits into its run, and into the meta blocks besides all runs.
pub fn sizes()
    ensures output { OutputFits }
    ensures quota { QuotaFits }
{}
