//! The second drive's map becomes the first's again.
ghost use Rattle.std.specs.Prelude.{◌≡◌, ◌≢◌, ◌<◌, ◌≤◌, ◌^◌, List, ℕ, [], length, true, false, Some, None, Err, OnOk, OnErr, IfOk, IfErr};
ghost use Rattle.std.specs.List.{AllByRecursion};
ghost use Rattle.std.specs.Option.{option_copied};
ghost use Rattle.pk_base.specs.Map.{Map};
ghost use Rattle.pk_base.specs.Shape.{greatest};
ghost use Rattle.pk_host.specs.Outcomes.{TookSome};
ghost use Rattle.pk_host.specs.Port.{PortState};
ghost use Rattle.pk_mirror.specs.Pair.{Mirrored, IsPair, Alike};
ghost use Rattle.pk_mirror.specs.Causes.{IsCause, IsReadError, AreAsking, NotEmpty, BothAsked};
ghost use Rattle.pk_mirror.specs.Agreement.{NoOther, HaveSame, AreAny, IsPart};
ghost use Rattle.pk_mirror.specs.Ranks.{IsText, keys_left};
ghost use Rattle.pk_mirror.specs.Visits.{Turns, VisitsAll, OnlyReadsFail};
ghost use Rattle.pk_mirror.specs.Spending.{OnlyLooks, AreOfResync, AreWholeResync};
ghost use Rattle.pk_mirror.specs.Progress.{Dropped, DropFails, Copied, CopyFails};

use crate::buffers::last_of;
use crate::error::{MirrorError, Side, on};
use crate::mirror::Mirror;
use crate::visiting::{copy_all_missing, drop_others};
use pk_base::Key;
use pk_host::{Host, KeyPage, Port};

impl Mirror {
    /// Deletes from the second each key that the first lacks or has with another value, then stores
    /// on it each key that it lacks, and deletes and stores nothing else: where both maps were the
    /// same it only looks. The pair is in step then. `Refused` if a read failed, `Port` if a port
    /// failed: the pair is split then, and never in step in between.
    pub fn resync<P: Port, Q: Port>(
        &mut self,
        first: &mut P,
        second: &mut Q,
    ) -> Result<(), MirrorError>
        requires { IsPair self.old (P.state first.old) (Q.state second.old) }

        // The pair.
        ensures pair { IsPair self.new (P.state first.new) (Q.state second.new) }
        ensures in_step { OnOk result (self.new.split ≡ false) }
        ensures splits { OnErr result (self.new.split ≡ true) }

        // The maps: both are the first's, which is unchanged in any case.
        ensures mirrored { OnOk result ((Q.state second.new).map ≡ (P.state first.old).map) }
        ensures keeps { (P.state first.new).map ≡ (P.state first.old).map }

        // Why they are not.
        ensures not_split { result ≢ Err MirrorError.Split }
        ensures causes { IfErr result (λ e. IsCause (P.state first.old) (P.state first.new)
            (Q.state second.old) (Q.state second.new) e) }
        ensures unread { (m : Map) → (P.state first.old).map ≡ Some m → IfErr result IsReadError }

        // The commands.
        ensures took_first { TookSome P.took AreAsking first.old first.new }
        ensures took_second { TookSome Q.took (AreOfResync (P.state first.old)
            (Q.state second.old)) second.old second.new }
        ensures exact { OnOk result (TookSome Q.took (AreWholeResync (P.state first.old)
            (Q.state second.old)) second.old second.new) }
        ensures quiet { self.old.split ≡ false → (m : Map) → (P.state first.old).map ≡ Some m
            → TookSome Q.took (AllByRecursion OnlyLooks) second.old second.new }
        ensures asked { OnOk result (BothAsked P.took Q.took first.old first.new second.old
            second.new) }
    {
        self.set_split(true);
        match self.copy_first(first, second) {
            Ok(()) => {
                self.set_split(false);
                Ok(())
            }
            Err(error) => Err(error),
        }
    }

    /// Makes the second's map the first's.
    fn copy_first<P: Port, Q: Port>(
        &mut self,
        first: &mut P,
        second: &mut Q,
    ) -> Result<(), MirrorError>
        // The pair.
        requires alike { Alike (P.state first.old) (Q.state second.old) }
        requires shape { (P.state first.old).shape ≡ self.old.shape }

        // The maps: both are the first's, which is unchanged in any case.
        ensures visits { OnOk result (VisitsAll AreAny HaveSame (P.state first.old)
            (Q.state second.old) (Q.state second.new)) }
        ensures keeps { (P.state first.new).map ≡ (P.state first.old).map }
        ensures same { self.new ≡ self.old }

        // Why they are not.
        ensures causes { IfErr result (λ e. IsCause (P.state first.old) (P.state first.new)
            (Q.state second.old) (Q.state second.new) e) }
        ensures unread { IfErr result (λ e.
            OnlyReadsFail AreAny (P.state first.old) (Q.state second.old) e) }

        // The commands.
        ensures took_first { TookSome P.took AreAsking first.old first.new }
        ensures took_second { TookSome Q.took (AreOfResync (P.state first.old)
            (Q.state second.old)) second.old second.new }
        ensures exact { OnOk result (TookSome Q.took (AreWholeResync (P.state first.old)
            (Q.state second.old)) second.old second.new) }
        ensures asked { OnOk result (BothAsked P.took Q.took first.old first.new second.old
            second.new) }
    {
        let one = self.first_value.as_mut_slice();
        let two = self.second_value.as_mut_slice();
        copy_map(
            &mut self.host,
            first,
            second,
            &mut self.first_keys,
            &mut self.second_keys,
            one,
            two,
        )
    }
}

/// Makes the second's map the first's: first what is to go, so that what is to come finds room.
fn copy_map<P: Port, Q: Port>(
    host: &mut Host,
    first: &mut P,
    second: &mut Q,
    first_keys: &mut KeyPage,
    second_keys: &mut KeyPage,
    one: &mut [u8],
    two: &mut [u8],
) -> Result<(), MirrorError>
    // The pair and the buffers.
    requires alike { Alike (P.state first.old) (Q.state second.old) }
    requires one { length one.old < 2 ^ 32 }
    requires room_one { greatest (P.state first.old).shape ≤ length one.old }
    requires two { length two.old < 2 ^ 32 }
    requires room_two { greatest (P.state first.old).shape ≤ length two.old }

    // The maps: both are the first's, which is unchanged in any case.
    ensures visits { OnOk result (VisitsAll AreAny HaveSame (P.state first.old)
        (Q.state second.old) (Q.state second.new)) }
    ensures keeps { (P.state first.new).map ≡ (P.state first.old).map }

    // Why they are not.
    ensures causes { IfErr result (λ e. IsCause (P.state first.old) (P.state first.new)
        (Q.state second.old) (Q.state second.new) e) }
    ensures unread { IfErr result (λ e.
        OnlyReadsFail AreAny (P.state first.old) (Q.state second.old) e) }

    // The commands.
    ensures took_first { TookSome P.took AreAsking first.old first.new }
    ensures took_second { TookSome Q.took (AreOfResync (P.state first.old)
        (Q.state second.old)) second.old second.new }
    ensures exact { OnOk result (TookSome Q.took (AreWholeResync (P.state first.old)
        (Q.state second.old)) second.old second.new) }
    ensures asked { OnOk result (BothAsked P.took Q.took first.old first.new second.old
        second.new) }
{
    match drop_all(host, first, second, second_keys, one, two) {
        Ok(()) => copy_all(host, first, second, first_keys, one),
        Err(error) => Err(error),
    }
}

/// Visits the next page of the second's keys, of those after this one, and deletes what is not the
/// first's. Its last key; nothing if no key follows.
fn drop_page<P: Port, Q: Port>(
    host: &mut Host,
    first: &mut P,
    second: &mut Q,
    last: Option<&Key>,
    page: &mut KeyPage,
    one: &mut [u8],
    two: &mut [u8],
) -> Result<Option<Key>, MirrorError>
    // The pair and the buffers.
    requires alike { Alike (P.state first.old) (Q.state second.old) }
    requires one { length one.old < 2 ^ 32 }
    requires room_one { greatest (P.state first.old).shape ≤ length one.old }
    requires two { length two.old < 2 ^ 32 }
    requires room_two { greatest (P.state first.old).shape ≤ length two.old }

    // The key before the page.
    requires text { (key : List ℕ) → option_copied last ≡ Some key → IsText key }

    // The keys of the page, and the one from which the next page is asked.
    ensures turns { IfOk result (λ next. Turns AreAny NoOther (P.state first.old)
        (Q.state second.old) (Q.state second.new) (option_copied last.entry) next) }
    ensures falls { IfOk result (λ next. (key : List ℕ) → next ≡ Some key → IsText key
        × (keys_left next < keys_left (option_copied last.entry))) }

    // The maps and the commands.
    ensures dropped { OnOk result (Dropped P.state P.took Q.state Q.took first.old
        first.new second.old second.new) }
    ensures fails { IfErr result (DropFails P.state P.took Q.state Q.took first.old
        first.new second.old second.new) }
    ensures asked_second { OnOk result (TookSome Q.took NotEmpty second.old second.new) }
{
    match host.list_page(second, last, page) {
        Ok(true) => match drop_others(host, first, second, page, one, two) {
            Ok(()) => Ok(Some(last_of(page))),
            Err(error) => Err(error),
        },
        Ok(false) => Ok(None),
        Err(error) => Err(on(Side::Second, error)),
    }
}

/// Deletes from the second all that is not the first's, page by page.
fn drop_all<P: Port, Q: Port>(
    host: &mut Host,
    first: &mut P,
    second: &mut Q,
    page: &mut KeyPage,
    one: &mut [u8],
    two: &mut [u8],
) -> Result<(), MirrorError>
    // The pair and the buffers.
    requires alike { Alike (P.state first.old) (Q.state second.old) }
    requires one { length one.old < 2 ^ 32 }
    requires room_one { greatest (P.state first.old).shape ≤ length one.old }
    requires two { length two.old < 2 ^ 32 }
    requires room_two { greatest (P.state first.old).shape ≤ length two.old }

    // The keys of the second drive.
    ensures visits { OnOk result (VisitsAll AreAny NoOther (P.state first.old)
        (Q.state second.old) (Q.state second.new)) }

    // The maps and the commands.
    ensures dropped { OnOk result (Dropped P.state P.took Q.state Q.took first.old
        first.new second.old second.new) }
    ensures fails { IfErr result (DropFails P.state P.took Q.state Q.took first.old
        first.new second.old second.new) }
    ensures asked_second { OnOk result (TookSome Q.took NotEmpty second.old second.new) }
{
    let mut last = None;
    loop {
        match drop_page(host, first, second, last.as_ref(), page, one, two) {
            Ok(Some(next)) => last = Some(next),
            Ok(None) => return Ok(()),
            Err(error) => return Err(error),
        }
    }
}

/// Visits the next page of the first's keys, of those after this one, and stores what the second
/// lacks. Its last key; nothing if no key follows.
fn copy_page<P: Port, Q: Port>(
    host: &mut Host,
    first: &mut P,
    second: &mut Q,
    last: Option<&Key>,
    page: &mut KeyPage,
    one: &mut [u8],
) -> Result<Option<Key>, MirrorError>
    // The pair and the buffer.
    requires alike { Alike (P.state first.old) (Q.state second.old) }
    requires one { length one.old < 2 ^ 32 }
    requires room_one { greatest (P.state first.old).shape ≤ length one.old }

    // The key before the page.
    requires text { (key : List ℕ) → option_copied last ≡ Some key → IsText key }

    // The keys of the page, and the one from which the next page is asked.
    ensures turns { IfOk result (λ next. Turns IsPart HaveSame (P.state first.old)
        (Q.state second.old) (Q.state second.new) (option_copied last.entry) next) }
    ensures falls { IfOk result (λ next. (key : List ℕ) → next ≡ Some key → IsText key
        × (keys_left next < keys_left (option_copied last.entry))) }

    // The maps and the commands.
    ensures copied { OnOk result (Copied P.state P.took Q.state Q.took first.old
        first.new second.old second.new) }
    ensures fails { IfErr result (CopyFails P.state P.took Q.state Q.took first.old
        first.new second.old second.new) }
    ensures asked_first { OnOk result (TookSome P.took NotEmpty first.old first.new) }
{
    match host.list_page(first, last, page) {
        Ok(true) => match copy_all_missing(host, first, second, page, one) {
            Ok(()) => Ok(Some(last_of(page))),
            Err(error) => Err(error),
        },
        Ok(false) => Ok(None),
        Err(error) => Err(on(Side::First, error)),
    }
}

/// Stores on the second all that it lacks, page by page.
fn copy_all<P: Port, Q: Port>(
    host: &mut Host,
    first: &mut P,
    second: &mut Q,
    page: &mut KeyPage,
    one: &mut [u8],
) -> Result<(), MirrorError>
    // The pair and the buffer.
    requires alike { Alike (P.state first.old) (Q.state second.old) }
    requires one { length one.old < 2 ^ 32 }
    requires room_one { greatest (P.state first.old).shape ≤ length one.old }

    // The keys of the first drive.
    ensures visits { OnOk result (VisitsAll IsPart HaveSame (P.state first.old)
        (Q.state second.old) (Q.state second.new)) }

    // The maps and the commands.
    ensures copied { OnOk result (Copied P.state P.took Q.state Q.took first.old
        first.new second.old second.new) }
    ensures fails { IfErr result (CopyFails P.state P.took Q.state Q.took first.old
        first.new second.old second.new) }
    ensures asked_first { OnOk result (TookSome P.took NotEmpty first.old first.new) }
{
    let mut last = None;
    loop {
        match copy_page(host, first, second, last.as_ref(), page, one) {
            Ok(Some(next)) => last = Some(next),
            Ok(None) => return Ok(()),
            Err(error) => return Err(error),
        }
    }
}
