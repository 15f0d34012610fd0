//! The keys of a pair, page by page into one text.
ghost use Rattle.std.specs.Prelude.{◌≡◌, ◌+◌, ◌*◌, ◌<◌, ◌≤◌, ◌++◌, ℕ, List, length, true, false, Some, OnOk, IfOk, IfErr};
ghost use Rattle.std.specs.FinMap.{keys};
ghost use Rattle.std.specs.Option.{option_copied};
ghost use Rattle.pk_base.specs.Map.{Map};
ghost use Rattle.pk_base.specs.Shape.{limit};
ghost use Rattle.pk_nvme.specs.Bytes.{RoomyList};
ghost use Rattle.pk_nvme.specs.Command.{key_or_none};
ghost use Rattle.pk_host.specs.Outcomes.{TookSome, AtMostOne, list_of};
ghost use Rattle.pk_words.specs.Lines.{key_lines};
ghost use Rattle.pk_words.specs.declared.sizes.TheConstants.{LINE_BYTES};
ghost use Rattle.pk_mirror.specs.Asks.{KeepsMaps, StaysUnlessPort};
ghost use Rattle.pk_mirror.specs.Causes.{AreAsking};
ghost use Rattle.pk_mirror.specs.Pair.{Mirrored, IsPair};
ghost use Rattle.pk_mirror.specs.Ranks.{IsText, keys_left};
ghost use Rattle.pk_mirrorwords.specs.PairTasks.{list};
ghost use Rattle.pk_mirrorwords.specs.PairAnswers.{IsToldPair, IsInStep, PairDone, PairFails};
ghost use Rattle.pk_mirrorwords.specs.PairPages.{IsListed, ListGoesOn, PageFails};

use pk_base::{Key, Shape};
use pk_host::{KeyPage, Port};
use pk_mirror::{Mirror, MirrorError, last_of};
use pk_nvme::Bytes;
use pk_words::lines::add_key;

/// Adds a line for each key of a page.
fn add_keys(page: &KeyPage, text: &mut Bytes)
    requires { length text.old.items + LINE_BYTES * length page.now ≤ text.old.room }
    ensures lines { text.new
        ≡ record text.old { items = text.old.items ++ key_lines page.now } }
    ensures most { length text.new.items
        ≤ length text.old.items + LINE_BYTES * length page.now }
{
    for i in 0..page.len() {
        add_key(page.at(i), text);
    }
}

/// Adds the keys of the next page, of those after this one. Its last key; nothing when no key follows.
fn add_page<P: Port, Q: Port>(
    mirror: &mut Mirror,
    first: &mut P,
    second: &mut Q,
    shape: &Shape,
    last: Option<&Key>,
    page: &mut KeyPage,
    text: &mut Bytes,
) -> Result<Option<Key>, MirrorError>
    // The pair, the key before the page, and the text so far.
    requires pair { IsToldPair mirror.old (P.state first.old) (Q.state second.old) }
    requires shape { (P.state first.old).shape ≡ shape.now }
    requires from { (key : List ℕ) → option_copied last ≡ Some key → IsText key }
    requires room { LINE_BYTES * limit shape.now ≤ text.old.room }
    requires listed { IsListed (P.state first.old) (option_copied last) text.old.items }

    // The lines of the page, and the key from which the next page is asked.
    ensures goes { IfOk result (λ next. ListGoesOn (P.state first.old) (option_copied last.entry)
        next text.old.items text.new.items) }

    // The pair and its maps.
    ensures pair { IsPair mirror.new (P.state first.new) (Q.state second.new) }
    ensures keeps { KeepsMaps (P.state first.old) (P.state first.new) (Q.state second.old)
        (Q.state second.new) }
    ensures stays { mirror.old.split ≡ false → StaysUnlessPort mirror.new (P.state first.old)
        (P.state first.new) (Q.state second.old) (Q.state second.new) }

    // Why there is no page.
    ensures fails { IfErr result (λ e. PageFails mirror.old (P.state first.old)
        (P.state first.new) (Q.state second.old) (Q.state second.new) e) }

    // The commands.
    ensures took_first { TookSome P.took
        (AtMostOne (list_of (key_or_none (option_copied last.entry)))) first.old first.new }
    ensures took_second { TookSome Q.took
        (AtMostOne (list_of (key_or_none (option_copied last.entry)))) second.old second.new }

    // What is unchanged.
    ensures room { text.new.room ≡ text.old.room }
{
    shape.known();
    match mirror.list_page(first, second, last, page) {
        Ok(true) => {
            add_keys(page, text);
            Ok(Some(last_of(page)))
        }
        Ok(false) => Ok(None),
        Err(error) => Err(error),
    }
}

/// Says all keys of a pair in step.
pub fn list<P: Port, Q: Port>(
    mirror: &mut Mirror,
    first: &mut P,
    second: &mut Q,
    shape: &Shape,
    page: &mut KeyPage,
    text: &mut Bytes,
) -> Result<(), MirrorError>
    // The pair and the text.
    requires pair { IsInStep mirror.old (P.state first.old) (Q.state second.old) }
    requires shape { (P.state first.old).shape ≡ shape.now }
    requires room { LINE_BYTES * limit shape.now ≤ text.old.room }

    // What the word does, or how it fails.
    ensures done { OnOk result ((m : Map) → (P.state first.old).map ≡ Some m
        → PairDone list (P.state first.old) (P.state first.new) (Q.state second.new) m
        text.new.items) }
    ensures fails { IfErr result (λ e. (m : Map) → (P.state first.old).map ≡ Some m
        → PairFails list (P.state first.old) (P.state first.new) (Q.state second.old)
        (Q.state second.new) m e) }

    // The commands.
    ensures took_first { TookSome P.took AreAsking first.old first.new }
    ensures took_second { TookSome Q.took AreAsking second.old second.new }

    // What is unchanged.
    ensures room { text.new.room ≡ text.old.room }
{
    text.clear();
    let mut last = None;
    loop {
        match add_page(mirror, first, second, shape, last.as_ref(), page, text) {
            Ok(Some(next)) => last = Some(next),
            Ok(None) => return Ok(()),
            Err(error) => return Err(error),
        }
    }
}
