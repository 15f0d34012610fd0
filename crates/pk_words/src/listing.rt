//! A list of keys, piece by piece.
ghost use Rattle.std.specs.Prelude.{◌≡◌, ◌<◌, ◌-◌, ℕ, List, [], ◌∷◌, length, slice_index_or, Some, OnErr, IfOk, IfSome};
ghost use Rattle.std.specs.Option.{option_copied};
ghost use Rattle.pk_nand.specs.Calls.{Rose};
ghost use Rattle.pk_nvme.specs.Command.{key_or_none};
ghost use Rattle.pk_host.specs.Calls.{IsOwnKey, exist_of};
ghost use Rattle.pk_host.specs.Outcomes.{Leaves, list_of};
ghost use Rattle.pk_words.specs.Listing.{Piece, IsOwnPlace, IsText, asked_at, position_after, start_at};
ghost use Rattle.pk_words.specs.declared.listing.ListPosition.TheVariants.{From};

use crate::lines::{add_key, say_keys, say_status};
use crate::words::Words;
use pk_base::{Key, are_bytes};
use pk_host::{HostError, KeyPage, Port, PortFault};

/// Where a list of keys goes on.
#[derive(Drop)]
pub enum ListPosition {
    /// At the first key.
    First,
    /// At this key, or after it if it is missing.
    From(Key),
    /// After this key.
    After(Key),
}

impl ListPosition {
    /// Where a list from this key on begins, or one of all keys.
    pub fn from(key: Option<Key>) -> ListPosition
        ensures { result ≡ start_at key }
    {
        match key {
            None => ListPosition::First,
            Some(key) => ListPosition::From(key),
        }
    }
}

impl Words {
    /// Says the next piece of a list, by one command. The place where the list goes on; nothing if
    /// this was its last piece, as no key remains or as a read failed.
    pub fn list<P: Port>(
        &mut self,
        port: &mut P,
        place: ListPosition,
    ) -> Result<Option<ListPosition>, PortFault>
        requires { IsOwnPlace place }
        ensures piece { IfOk result (λ next. Piece (P.state port.old) (P.state port.new) place next
            self.new.text) }
        ensures own { IfOk result (λ next. IfSome next IsOwnPlace) }
        ensures leaves { Leaves (P.state port.old) (P.state port.new) (λ m. m) }
        ensures fault { OnErr result
            (Rose (P.state port.old).port_faults (P.state port.new).port_faults) }
        ensures took { P.took port.old (asked_at place ∷ []) port.new }
        ensures shape { self.new.shape ≡ self.old.shape }
    {
        match place {
            ListPosition::First => self.list_after(port, None),
            ListPosition::From(key) => self.list_at(port, key),
            ListPosition::After(key) => {
                is_text(&key);
                self.list_after(port, Some(&key))
            }
        }
    }

    /// Says this key, if it exists.
    fn list_at<P: Port>(
        &mut self,
        port: &mut P,
        key: Key,
    ) -> Result<Option<ListPosition>, PortFault>
        requires { IsOwnKey key }
        ensures piece { IfOk result (λ next. Piece (P.state port.old) (P.state port.new)
            (From key) next self.new.text) }
        ensures own { IfOk result (λ next. IfSome next IsOwnPlace) }
        ensures leaves { Leaves (P.state port.old) (P.state port.new) (λ m. m) }
        ensures fault { OnErr result
            (Rose (P.state port.old).port_faults (P.state port.new).port_faults) }
        ensures took { P.took port.old (exist_of key ∷ []) port.new }
        ensures shape { self.new.shape ≡ self.old.shape }
    {
        // so that the key is known to be one
        let _ = key.bytes();
        self.text.clear();
        match self.host.exist(port, &key) {
            Ok(true) => {
                add_key(&key, &mut self.text);
                Ok(Some(ListPosition::After(key)))
            }
            Ok(false) => Ok(Some(ListPosition::After(key))),
            Err(HostError::Refused { status }) => {
                say_status(status, &mut self.text);
                Ok(None)
            }
            Err(_) => Err(PortFault),
        }
    }

    /// Says a page of the keys after this one, or from the first if there is none.
    fn list_after<P: Port>(
        &mut self,
        port: &mut P,
        from: Option<&Key>,
    ) -> Result<Option<ListPosition>, PortFault>
        requires { (key : List ℕ) → option_copied from ≡ Some key → IsText key }
        ensures piece { IfOk result (λ next. Piece (P.state port.old) (P.state port.new)
            (position_after (option_copied from.entry)) next self.new.text) }
        ensures own { IfOk result (λ next. IfSome next IsOwnPlace) }
        ensures leaves { Leaves (P.state port.old) (P.state port.new) (λ m. m) }
        ensures fault { OnErr result
            (Rose (P.state port.old).port_faults (P.state port.new).port_faults) }
        ensures took { P.took port.old (list_of (key_or_none (option_copied from.entry)) ∷ [])
            port.new }
        ensures shape { self.new.shape ≡ self.old.shape }
    {
        match self.host.list_page(port, from, &mut self.page) {
            Ok(true) => {
                say_keys(&self.page, &mut self.text);
                Ok(Some(ListPosition::After(last_of(&self.page))))
            }
            Ok(false) => {
                self.text.clear();
                Ok(None)
            }
            Err(HostError::Refused { status }) => {
                say_status(status, &mut self.text);
                Ok(None)
            }
            Err(_) => Err(PortFault),
        }
    }
}

/// The last key of a page that has one.
fn last_of(page: &KeyPage) -> Key
    requires { 0 < length page.now }
    ensures last { result ≡ slice_index_or page.now (length page.now - 1) [] }
    ensures text { IsText result }
{
    let last = page.at(page.len() - 1);
    is_text(last);
    last.copy()
}

/// A key of the namespace in which commands are passed is one, and 1 to 16 bytes.
fn is_text(key: &Key)
    requires { IsOwnKey key.now }
    ensures { IsText key.now }
{
    are_bytes(key.bytes());
}
