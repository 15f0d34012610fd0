//! A word of a pair over two ports: what it asks, and what it says.
ghost use Rattle.std.specs.Prelude.{◌≡◌, ◌⊎◌, ◌+◌, ◌*◌, ◌<◌, ◌≤◌, ◌^◌, ◌++◌, length, false, OnOk, OnErr, IfOk, IfErr};
ghost use Rattle.pk_base.specs.Map.{Map};
ghost use Rattle.pk_base.specs.Shape.{greatest};
ghost use Rattle.pk_nvme.specs.Bytes.{RoomyList};
ghost use Rattle.pk_host.specs.Calls.{IsOwnKey, store_of, delete_of, retrieve_of};
ghost use Rattle.pk_host.specs.Outcomes.{AtMostOne, TookSome};
ghost use Rattle.pk_host.specs.declared.types.StoreRule.TheVariants.{Any};
ghost use Rattle.pk_words.specs.Lines.{key_lines};
ghost use Rattle.pk_words.specs.declared.sizes.TheConstants.{LINE_BYTES};
ghost use Rattle.pk_mirror.specs.Causes.{AreAsking};
ghost use Rattle.pk_mirror.specs.Pair.{Mirrored};
ghost use Rattle.pk_mirrorwords.specs.PairTasks.{seen, IsAllowed, put, get, delete, list};
ghost use Rattle.pk_mirrorwords.specs.PairAnswers.{IsToldPair, IsInStep, PairDone, PairSaid, PairFails, PairFault, ResyncFails, AreOfWord, AsksSecond, PairAsked};

use crate::pages::list;
use crate::pair_room::PairRoom;
use crate::task::PairTask;
use pk_base::Key;
use pk_host::{Port, PortFault, StoreRule};
use pk_mirror::{Mirror, MirrorError};
use pk_nvme::Bytes;
use pk_nvme::status::{KEY_DOES_NOT_EXIST, SUCCESSFUL_COMPLETION};
use pk_words::lines::{add_key, front, say_status, say_value};

// ---- the words of one command each, on a pair in step

/// Stores a value on both drives.
fn put<P: Port, Q: Port>(
    mirror: &mut Mirror,
    first: &mut P,
    second: &mut Q,
    key: &Key,
    value: &[u8],
    text: &mut Bytes,
) -> Result<(), MirrorError>
    // The pair, the key, the value and the text.
    requires pair { IsInStep mirror.old (P.state first.old) (Q.state second.old) }
    requires own { IsOwnKey key.now }
    requires short { length value.now < 2 ^ 32 }
    requires room { 11 ≤ text.old.room }

    // What the word does, or how it fails.
    ensures done { OnOk result ((m : Map) → (P.state first.old).map ≡ Some m
        → PairDone (put key.now value.now) (P.state first.old) (P.state first.new)
        (Q.state second.new) m text.new.items) }
    ensures fails { IfErr result (λ e. (m : Map) → (P.state first.old).map ≡ Some m
        → PairFails (put key.now value.now) (P.state first.old) (P.state first.new)
        (Q.state second.old) (Q.state second.new) m e) }

    // The commands.
    ensures took_first { TookSome P.took (AtMostOne (store_of key.now value.now Any)) first.old
        first.new }
    ensures took_second { TookSome Q.took (AtMostOne (store_of key.now value.now Any)) second.old
        second.new }

    // What is unchanged.
    ensures room { text.new.room ≡ text.old.room }
{
    match mirror.store(first, second, key, value, StoreRule::Any) {
        Ok(()) => {
            say_status(SUCCESSFUL_COMPLETION, text);
            Ok(())
        }
        Err(error) => Err(error),
    }
}

/// Takes a key away from both drives.
fn delete<P: Port, Q: Port>(
    mirror: &mut Mirror,
    first: &mut P,
    second: &mut Q,
    key: &Key,
    text: &mut Bytes,
) -> Result<(), MirrorError>
    // The pair, the key and the text.
    requires pair { IsInStep mirror.old (P.state first.old) (Q.state second.old) }
    requires own { IsOwnKey key.now }
    requires room { 11 ≤ text.old.room }

    // What the word does, or how it fails.
    ensures done { OnOk result ((m : Map) → (P.state first.old).map ≡ Some m
        → PairDone (delete key.now) (P.state first.old) (P.state first.new) (Q.state second.new) m
        text.new.items) }
    ensures fails { IfErr result (λ e. (m : Map) → (P.state first.old).map ≡ Some m
        → PairFails (delete key.now) (P.state first.old) (P.state first.new) (Q.state second.old)
        (Q.state second.new) m e) }

    // The commands.
    ensures took_first { TookSome P.took (AtMostOne (delete_of key.now)) first.old first.new }
    ensures took_second { TookSome Q.took (AtMostOne (delete_of key.now)) second.old second.new }

    // What is unchanged.
    ensures room { text.new.room ≡ text.old.room }
{
    match mirror.delete(first, second, key) {
        Ok(true) => {
            say_status(SUCCESSFUL_COMPLETION, text);
            Ok(())
        }
        Ok(false) => {
            say_status(KEY_DOES_NOT_EXIST, text);
            Ok(())
        }
        Err(error) => Err(error),
    }
}

/// Says the whole value of a key, with a buffer of the greatest value.
fn get<P: Port, Q: Port>(
    mirror: &mut Mirror,
    first: &mut P,
    second: &mut Q,
    key: &Key,
    value: &mut [u8],
    text: &mut Bytes,
) -> Result<(), MirrorError>
    // The pair, the key, the value and the text.
    requires pair { IsInStep mirror.old (P.state first.old) (Q.state second.old) }
    requires own { IsOwnKey key.now }
    requires value { length value.old ≡ greatest (P.state first.old).shape }
    requires short { length value.old < 2 ^ 32 }
    requires room { 2 * length value.old + 11 ≤ text.old.room }

    // What the word does, or how it fails.
    ensures done { OnOk result ((m : Map) → (P.state first.old).map ≡ Some m
        → PairDone (get key.now) (P.state first.old) (P.state first.new) (Q.state second.new) m
        text.new.items) }
    ensures fails { IfErr result (λ e. (m : Map) → (P.state first.old).map ≡ Some m
        → PairFails (get key.now) (P.state first.old) (P.state first.new) (Q.state second.old)
        (Q.state second.new) m e) }

    // The commands.
    ensures took_first { TookSome P.took (AtMostOne (retrieve_of key.now (length value.old)))
        first.old first.new }
    ensures took_second { TookSome Q.took (AtMostOne (retrieve_of key.now (length value.old)))
        second.old second.new }

    // What is unchanged.
    ensures room { text.new.room ≡ text.old.room }
{
    // so that the key is known to be one
    let _ = key.bytes();
    match mirror.retrieve(first, second, key, value) {
        Ok(Some(len)) => {
            say_value(front(value, len as usize), text);
            Ok(())
        }
        Ok(None) => {
            say_status(KEY_DOES_NOT_EXIST, text);
            Ok(())
        }
        Err(error) => Err(error),
    }
}

// ---- any word

/// Does what a word asks of a pair in step.
fn ask_in_step<P: Port, Q: Port>(
    mirror: &mut Mirror,
    first: &mut P,
    second: &mut Q,
    room: &mut PairRoom,
    task: &PairTask,
) -> Result<(), MirrorError>
    // The pair, the word and the memory.
    requires pair { IsInStep mirror.old (P.state first.old) (Q.state second.old) }
    requires allowed { IsAllowed (seen task.now) }
    requires shape { (P.state first.old).shape ≡ room.old.shape }

    // What the word does, or how it fails.
    ensures done { OnOk result ((m : Map) → (P.state first.old).map ≡ Some m
        → PairDone (seen task.now) (P.state first.old) (P.state first.new) (Q.state second.new) m
        room.new.text) }
    ensures fails { IfErr result (λ e. (m : Map) → (P.state first.old).map ≡ Some m
        → PairFails (seen task.now) (P.state first.old) (P.state first.new) (Q.state second.old)
        (Q.state second.new) m e) }

    // The commands.
    ensures took_first { TookSome P.took (AreOfWord (seen task.now)) first.old first.new }
    ensures took_second { TookSome Q.took (AreOfWord (seen task.now)) second.old second.new }

    // What is unchanged.
    ensures shape { room.new.shape ≡ room.old.shape }
{
    let shape = room.shape;
    match task {
        PairTask::Put(key, value) => {
            put(mirror, first, second, key, value.bytes(), &mut room.text)
        }
        PairTask::Get(key) => {
            let value = room.value.as_mut_slice();
            get(mirror, first, second, key, value, &mut room.text)
        }
        PairTask::Delete(key) => delete(mirror, first, second, key, &mut room.text),
        PairTask::List => list(
            mirror,
            first,
            second,
            &shape,
            &mut room.page,
            &mut room.text,
        ),
        PairTask::Resync => {
            say_status(SUCCESSFUL_COMPLETION, &mut room.text);
            Ok(())
        }
    }
}

/// Makes the second drive equal to the first, and does what a word asks.
fn ask_pair<P: Port, Q: Port>(
    mirror: &mut Mirror,
    first: &mut P,
    second: &mut Q,
    room: &mut PairRoom,
    task: &PairTask,
) -> Result<(), MirrorError>
    // The pair, the word and the memory.
    requires pair { IsToldPair mirror.old (P.state first.old) (Q.state second.old) }
    requires allowed { IsAllowed (seen task.now) }
    requires shape { (P.state first.old).shape ≡ room.old.shape }

    // What the word does, or how it fails.
    ensures done { OnOk result ((m : Map) → (P.state first.old).map ≡ Some m
        → PairDone (seen task.now) (P.state first.old) (P.state first.new) (Q.state second.new) m
        room.new.text) }
    ensures fails { IfErr result (λ e. (m : Map) → (P.state first.old).map ≡ Some m
        → PairFails (seen task.now) (P.state first.old) (P.state first.new) (Q.state second.old)
        (Q.state second.new) m e) }

    // The commands.
    ensures took_first { TookSome P.took (AreOfWord (seen task.now)) first.old first.new }
    ensures took_second { TookSome Q.took (AsksSecond (seen task.now) (P.state first.old)
        (Q.state second.old)) second.old second.new }
    ensures asked { PairAsked P.took Q.took (seen task.now) (P.state first.old)
        (Q.state second.old) first.old first.new second.old second.new
        ⊎ ResyncFails (P.state first.old) (P.state first.new) (Q.state second.old)
        (Q.state second.new) result }

    // What is unchanged.
    ensures shape { room.new.shape ≡ room.old.shape }
{
    match mirror.resync(first, second) {
        Ok(()) => ask_in_step(mirror, first, second, room, task),
        Err(error) => Err(error),
    }
}

/// Makes the second drive equal to the first, does what a word asks, and says the answer. An error
/// when a port failed. Each port took at least one command when the text is the definition's, and
/// the second a Delete or a Store of exactly the keys that differed.
pub fn answer_pair<P: Port, Q: Port>(
    mirror: &mut Mirror,
    first: &mut P,
    second: &mut Q,
    room: &mut PairRoom,
    task: &PairTask,
) -> Result<(), PortFault>
    // The pair, the word and the memory.
    requires pair { IsToldPair mirror.old (P.state first.old) (Q.state second.old) }
    requires allowed { IsAllowed (seen task.now) }
    requires shape { (P.state first.old).shape ≡ room.old.shape }

    // The text, or that a port failed.
    ensures said { OnOk result ((m : Map) → (P.state first.old).map ≡ Some m
        → PairSaid (PairAsked P.took Q.took (seen task.now) (P.state first.old)
        (Q.state second.old) first.old first.new second.old second.new)
        (seen task.now) (P.state first.old) (P.state first.new) (Q.state second.old)
        (Q.state second.new) m room.new.text) }
    ensures fault { OnErr result (PairFault (P.state first.old) (P.state first.new)
        (Q.state second.old) (Q.state second.new)) }

    // The commands.
    ensures took_first { TookSome P.took (AreOfWord (seen task.now)) first.old first.new }
    ensures took_second { TookSome Q.took (AsksSecond (seen task.now) (P.state first.old)
        (Q.state second.old)) second.old second.new }

    // What is unchanged.
    ensures shape { room.new.shape ≡ room.old.shape }
{
    match ask_pair(mirror, first, second, room, task) {
        Ok(()) => Ok(()),
        Err(MirrorError::Refused { status, .. }) => {
            say_status(status, &mut room.text);
            Ok(())
        }
        Err(_) => Err(PortFault),
    }
}
