//! A key, and a page of keys, that is visited on both drives: what the second has otherwise is deleted from it, and what it lacks is
//! stored on it.
ghost use Rattle.std.specs.Prelude.{◌≡◌, ◌<◌, ◌≤◌, ◌^◌, [], ◌∷◌, length, take, true, false, Some, OnOk, IfOk, IfErr};
ghost use Rattle.std.specs.FinMap as map;
ghost use Rattle.pk_base.specs.Map.{Map};
ghost use Rattle.pk_base.specs.Shape.{greatest};
ghost use Rattle.pk_host.specs.Calls.{IsOwnKey};
ghost use Rattle.pk_host.specs.Outcomes.{TookSome};
ghost use Rattle.pk_host.specs.Port.{PortState};
ghost use Rattle.pk_mirror.specs.Pair.{Alike};
ghost use Rattle.pk_mirror.specs.Causes.{IsCause, AreAsking};
ghost use Rattle.pk_mirror.specs.Agreement.{NoOther, HaveSame, AreAny, IsPart};
ghost use Rattle.pk_mirror.specs.Visits.{Visits, OnlyReadsFail};
ghost use Rattle.pk_mirror.specs.Spending.{ToDelete, Deleted, Deleting, Stored, Storing};
ghost use Rattle.pk_mirror.specs.Progress.{Looked, Dropped, DropFails, Copied, CopyFails};

use crate::buffers::{front, same_fronts};
use crate::error::{MirrorError, Side, on};
use pk_base::Key;
use pk_host::{Host, KeyPage, Port, StoreRule};

// ---- what the second has otherwise

/// The second has a value of this key that is not the first's.
fn has_other<P: Port, Q: Port>(
    host: &mut Host,
    first: &mut P,
    second: &mut Q,
    key: &Key,
    one: &mut [u8],
    two: &mut [u8],
) -> Result<bool, MirrorError>
    // The key, the pair and the buffers.
    requires own { IsOwnKey key.now }
    requires one { length one.old < 2 ^ 32 }
    requires two { length two.old < 2 ^ 32 }
    requires alike { Alike (P.state first.old) (Q.state second.old) }
    requires room_one { greatest (P.state first.old).shape ≤ length one.old }
    requires room_two { greatest (P.state first.old).shape ≤ length two.old }

    // What the maps have of the key.
    ensures tells { IfOk result (λ other. (a b : Map) → (P.state first.old).map ≡ Some a
        → (Q.state second.old).map ≡ Some b → other ≡ false → NoOther a b key.now) }
    ensures differs { IfOk result (λ other. (a b : Map) → (P.state first.old).map ≡ Some a
        → (Q.state second.old).map ≡ Some b → other ≡ true → ToDelete a b key.now) }

    // The maps and the commands.
    ensures looks { OnOk result (Looked P.state P.took Q.state Q.took first.old
        first.new second.old second.new) }
    ensures fails { IfErr result (DropFails P.state P.took Q.state Q.took first.old
        first.new second.old second.new) }
{
    // so that the key is known to be one
    let _ = key.bytes();
    match host.retrieve(second, key, two) {
        Ok(None) => Ok(false),
        Ok(Some(held)) => match host.retrieve(first, key, one) {
            Ok(None) => Ok(true),
            Ok(Some(wanted)) => Ok(!same_fronts(one, wanted, two, held)),
            Err(error) => Err(on(Side::First, error)),
        },
        Err(error) => Err(on(Side::Second, error)),
    }
}

/// Deletes this key from the second, if it has a value of it that is not the first's.
fn drop_other<P: Port, Q: Port>(
    host: &mut Host,
    first: &mut P,
    second: &mut Q,
    key: &Key,
    one: &mut [u8],
    two: &mut [u8],
) -> Result<(), MirrorError>
    // The key, the pair and the buffers.
    requires own { IsOwnKey key.now }
    requires one { length one.old < 2 ^ 32 }
    requires two { length two.old < 2 ^ 32 }
    requires alike { Alike (P.state first.old) (Q.state second.old) }
    requires room_one { greatest (P.state first.old).shape ≤ length one.old }
    requires room_two { greatest (P.state first.old).shape ≤ length two.old }

    // The key on the second drive.
    ensures visits { OnOk result (Visits AreAny NoOther (P.state first.old)
        (Q.state second.old) (Q.state second.new) (key.now ∷ [])) }

    // The maps and the commands.
    ensures dropped { OnOk result (Dropped P.state P.took Q.state Q.took first.old
        first.new second.old second.new) }
    ensures fails { IfErr result (DropFails P.state P.took Q.state Q.took first.old
        first.new second.old second.new) }
{
    // so that the key is known to be one
    let _ = key.bytes();
    match has_other(host, first, second, key, one, two) {
        Ok(false) => Ok(()),
        Ok(true) => match host.delete(second, key) {
            Ok(_) => Ok(()),
            Err(error) => Err(on(Side::Second, error)),
        },
        Err(error) => Err(error),
    }
}

/// The same at each key of a page.
pub fn drop_others<P: Port, Q: Port>(
    host: &mut Host,
    first: &mut P,
    second: &mut Q,
    page: &KeyPage,
    one: &mut [u8],
    two: &mut [u8],
) -> Result<(), MirrorError>
    // The pair and the buffers.
    requires one { length one.old < 2 ^ 32 }
    requires two { length two.old < 2 ^ 32 }
    requires alike { Alike (P.state first.old) (Q.state second.old) }
    requires room_one { greatest (P.state first.old).shape ≤ length one.old }
    requires room_two { greatest (P.state first.old).shape ≤ length two.old }

    // The maps: the first is unchanged in any case.
    ensures visits { OnOk result (Visits AreAny NoOther (P.state first.old)
        (Q.state second.old) (Q.state second.new) page.now) }
    ensures keeps { (P.state first.new).map ≡ (P.state first.old).map }

    // Why not all keys were visited.
    ensures causes { IfErr result (λ e. IsCause (P.state first.old) (P.state first.new)
        (Q.state second.old) (Q.state second.new) e) }
    ensures unread { IfErr result (λ e.
        OnlyReadsFail AreAny (P.state first.old) (Q.state second.old) e) }

    // The commands.
    ensures took_first { TookSome P.took AreAsking first.old first.new }
    ensures took_second { TookSome Q.took (Deleting (P.state first.old) (Q.state second.old))
        second.old second.new }
    ensures deleted { OnOk result (TookSome Q.took (Deleted (P.state first.old)
        (Q.state second.old) (Q.state second.new)) second.old second.new) }
{
    for i in 0..page.len() {
        match drop_other(host, first, second, page.at(i), one, two) {
            Ok(()) => {}
            Err(error) => return Err(error),
        }
    }
    Ok(())
}

// ---- what the second lacks

/// Stores the first's value of this key on the second, which lacks it.
fn copy<P: Port, Q: Port>(
    host: &mut Host,
    first: &mut P,
    second: &mut Q,
    key: &Key,
    one: &mut [u8],
) -> Result<(), MirrorError>
    // The key, the pair and the buffer.
    requires own { IsOwnKey key.now }
    requires one { length one.old < 2 ^ 32 }
    requires alike { Alike (P.state first.old) (Q.state second.old) }
    requires room { greatest (P.state first.old).shape ≤ length one.old }
    requires lacked { (b : Map) → (Q.state second.old).map ≡ Some b
        → map.contains_key b key.now ≡ false }

    // The key on the second drive.
    ensures visits { OnOk result (Visits IsPart HaveSame (P.state first.old)
        (Q.state second.old) (Q.state second.new) (key.now ∷ [])) }

    // The maps and the commands.
    ensures copied { OnOk result (Copied P.state P.took Q.state Q.took first.old
        first.new second.old second.new) }
    ensures fails { IfErr result (CopyFails P.state P.took Q.state Q.took first.old
        first.new second.old second.new) }
{
    // so that the key is known to be one
    let _ = key.bytes();
    match host.retrieve(first, key, one) {
        Ok(None) => Ok(()),
        Ok(Some(len)) => match host.store(second, key, front(one, len), StoreRule::Any) {
            Ok(()) => Ok(()),
            Err(error) => Err(on(Side::Second, error)),
        },
        Err(error) => Err(on(Side::First, error)),
    }
}

/// Stores the first's value of this key on the second, if that lacks it.
fn copy_missing<P: Port, Q: Port>(
    host: &mut Host,
    first: &mut P,
    second: &mut Q,
    key: &Key,
    one: &mut [u8],
) -> Result<(), MirrorError>
    // The key, the pair and the buffer.
    requires own { IsOwnKey key.now }
    requires one { length one.old < 2 ^ 32 }
    requires alike { Alike (P.state first.old) (Q.state second.old) }
    requires room { greatest (P.state first.old).shape ≤ length one.old }

    // The key on the second drive.
    ensures visits { OnOk result (Visits IsPart HaveSame (P.state first.old)
        (Q.state second.old) (Q.state second.new) (key.now ∷ [])) }

    // The maps and the commands.
    ensures copied { OnOk result (Copied P.state P.took Q.state Q.took first.old
        first.new second.old second.new) }
    ensures fails { IfErr result (CopyFails P.state P.took Q.state Q.took first.old
        first.new second.old second.new) }
{
    // so that the key is known to be one
    let _ = key.bytes();
    match host.exist(second, key) {
        Ok(true) => Ok(()),
        Ok(false) => copy(host, first, second, key, one),
        Err(error) => Err(on(Side::Second, error)),
    }
}

/// The same at each key of a page.
pub fn copy_all_missing<P: Port, Q: Port>(
    host: &mut Host,
    first: &mut P,
    second: &mut Q,
    page: &KeyPage,
    one: &mut [u8],
) -> Result<(), MirrorError>
    // The pair and the buffer.
    requires one { length one.old < 2 ^ 32 }
    requires alike { Alike (P.state first.old) (Q.state second.old) }
    requires room { greatest (P.state first.old).shape ≤ length one.old }

    // The maps: the first is unchanged in any case.
    ensures visits { OnOk result (Visits IsPart HaveSame (P.state first.old)
        (Q.state second.old) (Q.state second.new) page.now) }
    ensures keeps { (P.state first.new).map ≡ (P.state first.old).map }

    // Why not all keys were visited.
    ensures causes { IfErr result (λ e. IsCause (P.state first.old) (P.state first.new)
        (Q.state second.old) (Q.state second.new) e) }
    ensures unread { IfErr result (λ e.
        OnlyReadsFail IsPart (P.state first.old) (Q.state second.old) e) }

    // The commands.
    ensures took_first { TookSome P.took AreAsking first.old first.new }
    ensures took_second { TookSome Q.took (Storing (P.state first.old) (Q.state second.old))
        second.old second.new }
    ensures stored { OnOk result (TookSome Q.took (Stored (P.state first.old)
        (Q.state second.old) (Q.state second.new)) second.old second.new) }
{
    for i in 0..page.len() {
        match copy_missing(host, first, second, page.at(i), one) {
            Ok(()) => {}
            Err(error) => return Err(error),
        }
    }
    Ok(())
}
