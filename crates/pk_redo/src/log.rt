//! The writes to a log. Each clause on a crash holds whatever the call answers.
ghost use Rattle.std.specs.Prelude.{◌≡◌, ◌≢◌, ◌⊎◌, ◌+◌, ◌^◌, ◌<◌, ◌≤◌, ℕ, List, [], ◌∷◌, ◌++◌, length, slice_index, drop, true, false, OnOk, IsTrue};
ghost use Rattle.sqlite_disk.specs.Disk.{Only};
ghost use Rattle.pk_redo.specs.Log.{IsSealed, LogHolds, MayBeOpen, IsShut, AtEachCrash, AllReady, AllStand};

use crate::batch::{BATCH_HEAD, BEGUN, FIRST_BATCH, OPEN};
use sqlite_disk::Disk;
use std::io;

/// Adds a batch by one sync, where a crash leaves of each byte that is written the old one or the
/// new one: it is written over zeros, and its count tells whether one is missing.
fn commit_counted<D: Disk>(disk: &mut D, end: usize, room: usize, batch: &[u8]) -> io::Result<()>
    // The log and the batch.
    requires usable { IsTrue (D.Disk.is_usable disk.old) }
    requires mixing { IsTrue (D.Disk.is_mixing disk.old) }
    requires sealed { IsSealed batch.now }
    requires fits { end + length batch.now < room }
    requires room { room < 2 ^ 63 }

    // What the log holds after a crash, and when the batch is in it.
    ensures crash { (bs : List (List ℕ)) → AllReady D.Disk disk.old bs end room
        → AtEachCrash D.Disk disk.new
        (λ c. LogHolds c bs ⊎ LogHolds c (bs ++ (drop BATCH_HEAD batch.now ∷ []))) }
    ensures done { OnOk result ((bs : List (List ℕ)) → AllReady D.Disk disk.old bs end room
        → AllReady D.Disk disk.new (bs ++ (drop BATCH_HEAD batch.now ∷ []))
        (end + length batch.now) room) }

    // A wrong answer is not forgotten, and after success the log is usable.
    ensures clean { IsTrue (D.Disk.is_clean disk.new) → IsTrue (D.Disk.is_clean disk.old) }
    ensures usable { OnOk result (IsTrue (D.Disk.is_usable disk.new)) }
{
    disk.write_at(end, batch)?;
    disk.sync()
}

/// Adds a batch by two syncs, whatever a crash leaves where it is written: its first byte is
/// written last.
fn commit_twice<D: Disk>(disk: &mut D, end: usize, room: usize, batch: &[u8]) -> io::Result<()>
    // The log and the batch.
    requires usable { IsTrue (D.Disk.is_usable disk.old) }
    requires sealed { IsSealed batch.now }
    requires fits { end + length batch.now < room }
    requires room { room < 2 ^ 63 }

    // What the log holds after a crash, and when the batch is in it.
    ensures crash { (bs : List (List ℕ)) → AllReady D.Disk disk.old bs end room
        → AtEachCrash D.Disk disk.new
        (λ c. LogHolds c bs ⊎ LogHolds c (bs ++ (drop BATCH_HEAD batch.now ∷ []))) }
    ensures done { OnOk result ((bs : List (List ℕ)) → AllReady D.Disk disk.old bs end room
        → AllReady D.Disk disk.new (bs ++ (drop BATCH_HEAD batch.now ∷ []))
        (end + length batch.now) room) }

    // A wrong answer is not forgotten, and after success the log is usable.
    ensures clean { IsTrue (D.Disk.is_clean disk.new) → IsTrue (D.Disk.is_clean disk.old) }
    ensures usable { OnOk result (IsTrue (D.Disk.is_usable disk.new)) }
{
    disk.write_at(end + 1, &batch[1..])?;
    disk.sync()?;
    disk.write_at(end, &[BEGUN])?;
    disk.sync()
}

/// Adds a sealed batch to those that end at a place, behind which there are zeros up to `room`.
pub fn commit<D: Disk>(disk: &mut D, end: usize, room: usize, batch: &[u8]) -> io::Result<()>
    requires usable { IsTrue (D.Disk.is_usable disk.old) }
    requires sealed { IsSealed batch.now }
    requires fits { end + length batch.now < room }
    requires room { room < 2 ^ 63 }
    // A crash leaves the batches without this one, or with all of it.
    ensures crash { (bs : List (List ℕ)) → AllReady D.Disk disk.old bs end room
        → AtEachCrash D.Disk disk.new
        (λ c. LogHolds c bs ⊎ LogHolds c (bs ++ (drop BATCH_HEAD batch.now ∷ []))) }
    // A commit that returned success is there, and one more may follow.
    ensures done { OnOk result ((bs : List (List ℕ)) → AllReady D.Disk disk.old bs end room
        → AllReady D.Disk disk.new (bs ++ (drop BATCH_HEAD batch.now ∷ []))
        (end + length batch.now) room) }
    ensures clean { IsTrue (D.Disk.is_clean disk.new) → IsTrue (D.Disk.is_clean disk.old) }
    ensures usable { OnOk result (IsTrue (D.Disk.is_usable disk.new)) }
{
    if disk.mixes() {
        commit_counted(disk, end, room, batch)
    } else {
        commit_twice(disk, end, room, batch)
    }
}

/// Writes zeros behind those that there are up to `room`, and syncs: there is room for more
/// batches.
pub fn extend<D: Disk>(disk: &mut D, end: usize, room: usize, blank: &[u8]) -> io::Result<()>
    requires usable { IsTrue (D.Disk.is_usable disk.old) }
    requires some { end < room }
    requires room { room + length blank.now < 2 ^ 63 }
    requires blank { (i : ℕ) → i < length blank.now → slice_index blank.now i ≡ 0 }
    requires long { 0 < length blank.now }
    // A crash leaves the same batches, and the same room.
    ensures crash { (bs : List (List ℕ)) → AllReady D.Disk disk.old bs end room
        → AllReady D.Disk disk.new bs end room }
    ensures done { OnOk result ((bs : List (List ℕ)) → AllReady D.Disk disk.old bs end room
        → AllReady D.Disk disk.new bs end (room + length blank.now)) }
    ensures clean { IsTrue (D.Disk.is_clean disk.new) → IsTrue (D.Disk.is_clean disk.old) }
    ensures usable { OnOk result (IsTrue (D.Disk.is_usable disk.new)) }
{
    disk.write_at(room, blank)?;
    disk.sync()
}

/// Whether a log has to be shut: its first byte opens it, or is not there.
fn needs_shut<D: Disk>(disk: &mut D) -> io::Result<bool>
    // The log.
    requires { IsTrue (D.Disk.is_usable disk.old) }
    ensures clean { IsTrue (D.Disk.is_clean disk.new) → IsTrue (D.Disk.is_clean disk.old) }

    // Whether it may be open.
    ensures yes { result ≡ Ok true → IsTrue (D.Disk.is_clean disk.new)
        → MayBeOpen (D.Disk.seen disk.old) }
    ensures no { result ≡ Ok false → IsTrue (D.Disk.is_clean disk.new)
        → IsShut (D.Disk.seen disk.old) }

    // The log stays as it was.
    ensures seen { D.Disk.seen disk.new ≡ D.Disk.seen disk.old }
    ensures usable { IsTrue (D.Disk.is_usable disk.new) }
    ensures crash { (c : List ℕ) → D.Disk.may_leave disk.new c → D.Disk.may_leave disk.old c }
{
    if disk.len()? == 0 {
        return Ok(true);
    }
    let mut byte = [0];
    disk.read_at(0, &mut byte)?;
    Ok(byte[0] == OPEN)
}

/// Shuts the log, so that a reader finds no batch in it, and syncs. What its batches changed has to
/// be elsewhere, synced.
pub fn shut<D: Disk>(disk: &mut D) -> io::Result<()>
    requires { IsTrue (D.Disk.is_usable disk.old) }
    // A crash leaves all batches, or none.
    ensures crash { IsTrue (D.Disk.is_clean disk.new) → (bs : List (List ℕ))
        → AllStand D.Disk disk.old bs
        → AtEachCrash D.Disk disk.new (λ c. LogHolds c bs ⊎ LogHolds c []) }
    ensures shut { OnOk result (IsTrue (D.Disk.is_clean disk.new) → IsShut (D.Disk.seen disk.new)) }
    ensures synced { OnOk result (Only (D.Disk.seen disk.new) (D.Disk.may_leave disk.new)) }
    ensures clean { IsTrue (D.Disk.is_clean disk.new) → IsTrue (D.Disk.is_clean disk.old) }
    ensures usable { OnOk result (IsTrue (D.Disk.is_usable disk.new)) }
{
    disk.sync()?;
    if !needs_shut(disk)? {
        return Ok(());
    }
    disk.write_at(0, &[0])?;
    disk.sync()
}

/// Empties a log, or makes one of a file: one batch, the record of its image, and zeros behind it.
/// What its batches changed has to be elsewhere, synced.
pub fn reset<D: Disk>(disk: &mut D, first: &[u8], blank: &[u8]) -> io::Result<()>
    requires usable { IsTrue (D.Disk.is_usable disk.old) }
    requires sealed { IsSealed first.now }
    requires room { FIRST_BATCH + length first.now + length blank.now < 2 ^ 63 }
    requires blank { (i : ℕ) → i < length blank.now → slice_index blank.now i ≡ 0 }
    requires long { 0 < length blank.now }
    // A crash leaves all batches, or none, or the record alone.
    ensures crash { IsTrue (D.Disk.is_clean disk.new) → (bs : List (List ℕ))
        → AllStand D.Disk disk.old bs
        → AtEachCrash D.Disk disk.new (λ c. LogHolds c bs
        ⊎ (LogHolds c [] ⊎ LogHolds c (drop BATCH_HEAD first.now ∷ []))) }
    ensures done { OnOk result (IsTrue (D.Disk.is_clean disk.new)
        → AllReady D.Disk disk.new (drop BATCH_HEAD first.now ∷ [])
        (FIRST_BATCH + length first.now)
        (FIRST_BATCH + length first.now + length blank.now)) }
    ensures clean { IsTrue (D.Disk.is_clean disk.new) → IsTrue (D.Disk.is_clean disk.old) }
    ensures usable { OnOk result (IsTrue (D.Disk.is_usable disk.new)) }
{
    shut(disk)?;
    disk.write_at(FIRST_BATCH, first)?;
    disk.write_at(FIRST_BATCH + first.len(), blank)?;
    disk.sync()?;
    disk.write_at(0, &[OPEN])?;
    disk.sync()
}
