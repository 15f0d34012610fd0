//! What the words need, and those of one command each.
ghost use Rattle.std.specs.Prelude.{◌≡◌, ◌+◌, ◌*◌, ◌<◌, ◌≤◌, ◌^◌, [], ◌∷◌, length, OnOk, OnErr, IfOk};
ghost use Rattle.pk_base.specs.Shape.{greatest};
ghost use Rattle.pk_nand.specs.Calls.{Rose};
ghost use Rattle.pk_host.specs.Calls.{IsOwnKey, store_of, delete_of, exist_of, retrieve_of};
ghost use Rattle.pk_host.specs.declared.types.StoreRule.TheVariants.{Any};
ghost use Rattle.pk_words.specs.Says.{SaysStatus, SaysValue};
ghost use Rattle.pk_words.specs.Said.{Said, Spoken};

use crate::lines::{front, say_status, say_value};
use crate::sizes::LINE_BYTES;
use crate::status::{existed_status, stored_status};
use pk_base::{Key, Shape};
use pk_host::sizes::MOST_KEYS;
use pk_host::{Host, HostError, KeyPage, Port, PortFault, StoreRule};
use pk_nvme::Bytes;
use pk_nvme::status::KEY_DOES_NOT_EXIST;
use std::alloc::{AllocError, Global};
use std::marker::Model;

/// All memory that the words need, for drives of one shape, and the text that was said last.
pub struct Words {
    shape: Shape,
    pub(crate) host: Host,
    value: Vec<u8>,
    pub(crate) page: KeyPage,
    pub(crate) text: Bytes,
}

// Written out, so that whoever drops one meets a call, and not the drops of all its parts.
impl Drop for Words {
    fn drop(self) {
        let Words {
            shape: _,
            host: _,
            value: _,
            page: _,
            text: _,
        } = self;
    }
}

impl Model for Words {
    ghost use Rattle.std.specs.Prelude.{◌≡◌, ◌+◌, ◌*◌, ◌<◌, ◌≤◌, ◌^◌, length};
    ghost use Rattle.pk_base.specs.Shape.{greatest};
    ghost use Rattle.pk_host.specs.declared.sizes.TheConstants.{MOST_KEYS};
    ghost use Rattle.pk_words.specs.declared.sizes.TheConstants.{LINE_BYTES};
    ghost use Rattle.pk_words.specs.Said.{Spoken};

    ghost Value = { Spoken };

    ghost view = { λ w. record { shape = w.shape; text = w.text.items } };

    ghost invariant = { λ w. (length w.value.items ≡ greatest w.shape)
        × (greatest w.shape < 2 ^ 32)
        × (2 * greatest w.shape + MOST_KEYS * LINE_BYTES ≤ w.text.room) };
}

impl Words {
    /// Takes the memory for values, keys and texts of drives of this shape.
    pub fn new(alloc: Global, shape: Shape) -> Result<Words, AllocError>
        ensures { IfOk result (λ w. w ≡ record { shape = shape; text = [] }) }
    {
        let greatest = shape.greatest() as usize;
        Ok(Words {
            shape,
            host: Host::new(alloc)?,
            value: Vec::from_elem(alloc, 0, greatest)?,
            page: KeyPage::new(alloc)?,
            text: Bytes::with_room(alloc, 2 * greatest + MOST_KEYS * LINE_BYTES)?,
        })
    }

    /// The text that was said last.
    pub fn text(&self) -> &[u8]
        ensures { result.now ≡ self.now.text }
    {
        self.text.bytes()
    }

    /// Stores a value under a key, and says how that was answered.
    pub fn put<P: Port>(&mut self, port: &mut P, key: &Key, value: &[u8]) -> Result<(), PortFault>
        requires own { IsOwnKey key.now }
        requires short { length value.now < 2 ^ 32 }
        ensures said { OnOk result (Said (SaysStatus (store_of key.now value.now Any))
            (P.state port.old) (P.state port.new) self.new.text) }
        ensures fault { OnErr result
            (Rose (P.state port.old).port_faults (P.state port.new).port_faults) }
        ensures took { P.took port.old (store_of key.now value.now Any ∷ []) port.new }
        ensures shape { self.new.shape ≡ self.old.shape }
    {
        match stored_status(self.host.store(port, key, value, StoreRule::Any)) {
            Ok(status) => {
                say_status(status, &mut self.text);
                Ok(())
            }
            Err(fault) => Err(fault),
        }
    }

    /// Takes a key away, and says how that was answered.
    pub fn delete<P: Port>(&mut self, port: &mut P, key: &Key) -> Result<(), PortFault>
        requires own { IsOwnKey key.now }
        ensures said { OnOk result (Said (SaysStatus (delete_of key.now))
            (P.state port.old) (P.state port.new) self.new.text) }
        ensures fault { OnErr result
            (Rose (P.state port.old).port_faults (P.state port.new).port_faults) }
        ensures took { P.took port.old (delete_of key.now ∷ []) port.new }
        ensures shape { self.new.shape ≡ self.old.shape }
    {
        match existed_status(self.host.delete(port, key)) {
            Ok(status) => {
                say_status(status, &mut self.text);
                Ok(())
            }
            Err(fault) => Err(fault),
        }
    }

    /// Says whether a key exists.
    pub fn has<P: Port>(&mut self, port: &mut P, key: &Key) -> Result<(), PortFault>
        requires own { IsOwnKey key.now }
        ensures said { OnOk result (Said (SaysStatus (exist_of key.now))
            (P.state port.old) (P.state port.new) self.new.text) }
        ensures fault { OnErr result
            (Rose (P.state port.old).port_faults (P.state port.new).port_faults) }
        ensures took { P.took port.old (exist_of key.now ∷ []) port.new }
        ensures shape { self.new.shape ≡ self.old.shape }
    {
        match existed_status(self.host.exist(port, key)) {
            Ok(status) => {
                say_status(status, &mut self.text);
                Ok(())
            }
            Err(fault) => Err(fault),
        }
    }

    /// Says the whole value of a key, over a drive of the shape of these words.
    pub fn get<P: Port>(&mut self, port: &mut P, key: &Key) -> Result<(), PortFault>
        requires own { IsOwnKey key.now }
        ensures said { OnOk result ((P.state port.old).shape ≡ self.old.shape
            → Said (SaysValue key.now) (P.state port.old) (P.state port.new) self.new.text) }
        ensures fault { OnErr result
            (Rose (P.state port.old).port_faults (P.state port.new).port_faults) }
        ensures took { P.took port.old (retrieve_of key.now (greatest self.old.shape) ∷ [])
            port.new }
        ensures shape { self.new.shape ≡ self.old.shape }
    {
        let buffer = self.value.as_mut_slice();
        say_found(&mut self.host, port, key, buffer, &mut self.text)
    }
}

/// Says the whole value of a key, with a buffer of the greatest value.
fn say_found<P: Port>(
    host: &mut Host,
    port: &mut P,
    key: &Key,
    buffer: &mut [u8],
    text: &mut Bytes,
) -> Result<(), PortFault>
    requires own { IsOwnKey key.now }
    requires small { length buffer.old < 2 ^ 32 }
    requires room { 2 * length buffer.old + 11 ≤ text.old.room }
    ensures said { OnOk result (length buffer.old ≡ greatest (P.state port.old).shape
        → Said (SaysValue key.now) (P.state port.old) (P.state port.new) text.new.items) }
    ensures fault { OnErr result
        (Rose (P.state port.old).port_faults (P.state port.new).port_faults) }
    ensures took { P.took port.old (retrieve_of key.now (length buffer.old) ∷ []) port.new }
    ensures room { text.new.room ≡ text.old.room }
{
    // so that the key is known to be one
    let _ = key.bytes();
    match host.retrieve(port, key, buffer) {
        Ok(Some(len)) => {
            say_value(front(buffer, len as usize), text);
            Ok(())
        }
        Ok(None) => {
            say_status(KEY_DOES_NOT_EXIST, text);
            Ok(())
        }
        Err(HostError::Refused { status }) => {
            say_status(status, text);
            Ok(())
        }
        Err(_) => Err(PortFault),
    }
}
