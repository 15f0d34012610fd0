//! The host: a buffer for keys, and the typed calls of one command each.
ghost use Rattle.std.specs.Prelude.{◌≡◌, ◌≤◌, ◌<◌, ◌^◌, [], ◌∷◌, length, OnOk, OnErr, IfOk, IfSome};
ghost use Rattle.std.specs.FinMap as map;
ghost use Rattle.std.specs.List.{AllByRecursion};
ghost use Rattle.std.specs.Option.{option_copied};
ghost use Rattle.pk_base.specs.Key.{IsBelow, bytes_of};
ghost use Rattle.pk_nvme.specs.Command.{key_or_none};
ghost use Rattle.pk_host.specs.Calls.{IsOwnKey, store_of, retrieve_of, delete_of, exist_of};
ghost use Rattle.pk_host.specs.Outcomes.{Gives, stored, retrieved, existed, list_of, Leaves, Deletes, Fetches, Tests};
ghost use Rattle.pk_host.specs.Listing.{IsStart, Pages, Follows, TellsKeys, listed_by};

use crate::ask::{Asked, ask};
use crate::key_page::KeyPage;
use crate::listing::read_keys;
use crate::port::Port;
use crate::types::{HostError, StoreRule};
use pk_base::{KEY_BYTES, Key};
use pk_nvme::limits::MOST_LIST_BYTES;
use pk_nvme::opcode::{DELETE, EXIST, LIST, RETRIEVE, STORE};
use pk_nvme::options::{IF_ABSENT, IF_EXISTS};
use pk_nvme::status::{KEY_DOES_NOT_EXIST, SUCCESSFUL_COMPLETION};
use std::alloc::{AllocError, Global};
use std::marker::Model;

/// A host that asks a drive over the port that it is lent. Its buffer has no meaning between calls.
#[derive(Drop)]
pub struct Host {
    buffer: Vec<u8>,
}

impl Model for Host {
    ghost use Rattle.std.specs.Prelude.{◌≡◌, length};
    ghost use Rattle.pk_nvme.specs.declared.limits.TheConstants.{MOST_LIST_BYTES};

    ghost Value = { Unit {0} };

    ghost view = { λ h. tt };

    ghost invariant = { λ h. length h.buffer.items ≡ MOST_LIST_BYTES };
}

/// The option bits of a Store.
fn options_of(rule: StoreRule) -> u8
    ensures { result ≡ Rattle.pk_host.specs.Calls.options_of rule }
{
    match rule {
        StoreRule::Any => 0,
        StoreRule::IfExists => IF_EXISTS,
        StoreRule::IfAbsent => IF_ABSENT,
    }
}

/// Whether the key was there, by the status of the command that asked for it.
fn existed_by(status: u8) -> Result<bool, HostError>
    ensures { result ≡ existed (record { status = status; result = 0; data_bytes = [] }) }
{
    match status {
        SUCCESSFUL_COMPLETION => Ok(true),
        KEY_DOES_NOT_EXIST => Ok(false),
        _ => Err(HostError::Refused { status }),
    }
}

/// The bytes of a key; none if there is no key.
pub(crate) fn start_bytes(from: Option<&Key>) -> &[u8]
    requires own { IfSome (option_copied from) IsOwnKey }
    ensures bytes { result.now ≡ bytes_of (key_or_none (option_copied from.entry)) }
    ensures short { length result.now ≤ KEY_BYTES }
    ensures key { IsStart (key_or_none (option_copied from.entry)) }
{
    match from {
        Some(key) => key.bytes(),
        None => &[],
    }
}

impl Host {
    /// A host with a buffer for the keys of one List, of 65,536 bytes; an error if the memory for
    /// it is missing.
    pub fn new(alloc: Global) -> Result<Host, AllocError> {
        Ok(Host {
            buffer: Vec::from_elem(alloc, 0, MOST_LIST_BYTES as usize)?,
        })
    }

    /// Stores a value under a key of the namespace in which commands are passed, by a rule. `Refused` with what the drive answers, `Port` if the
    /// port failed.
    pub fn store<P: Port>(
        &mut self,
        port: &mut P,
        key: &Key,
        value: &[u8],
        rule: StoreRule,
    ) -> Result<(), HostError>
        requires own { IsOwnKey key.now }
        requires size { length value.now < 2 ^ 32 }
        ensures gives { Gives (P.state port.old) (P.state port.new)
            (store_of key.now value.now rule) stored result }
        ensures stores { OnOk result (Leaves (P.state port.old) (P.state port.new)
            (λ m. map.insert m key.now value.now)) }
        ensures took { P.took port.old (store_of key.now value.now rule ∷ []) port.new }
    {
        let asked = Asked {
            opcode: STORE,
            size: value.len() as u32,
            options: options_of(rule),
        };
        match ask(port, asked, key.bytes(), value, &mut []) {
            Ok(received) => match received.status {
                SUCCESSFUL_COMPLETION => Ok(()),
                status => Err(HostError::Refused { status }),
            },
            Err(error) => Err(error),
        }
    }

    /// The whole length of the value of a key in bytes, with its first bytes in the buffer; `None`
    /// if the key is missing. `Refused` if a read failed, `Port` if the port did.
    pub fn retrieve<P: Port>(
        &mut self,
        port: &mut P,
        key: &Key,
        into: &mut [u8],
    ) -> Result<Option<u32>, HostError>
        requires own { IsOwnKey key.now }
        requires size { length into.old < 2 ^ 32 }
        ensures gives { Gives (P.state port.old) (P.state port.new)
            (retrieve_of key.now (length into.old)) retrieved result }
        ensures fetches { IfOk result (λ len. Fetches (P.state port.old) key.now len into.new) }
        ensures leaves { OnOk result (Leaves (P.state port.old) (P.state port.new) (λ m. m)) }
        ensures took { P.took port.old (retrieve_of key.now (length into.old) ∷ []) port.new }
    {
        let asked = Asked {
            opcode: RETRIEVE,
            size: into.len() as u32,
            options: 0,
        };
        match ask(port, asked, key.bytes(), &[], into) {
            Ok(received) => match received.status {
                SUCCESSFUL_COMPLETION => Ok(Some(received.result)),
                KEY_DOES_NOT_EXIST => Ok(None),
                status => Err(HostError::Refused { status }),
            },
            Err(error) => Err(error),
        }
    }

    /// Deletes a key; false if it is missing. `Refused` if a read failed, `Port` if the port did.
    pub fn delete<P: Port>(&mut self, port: &mut P, key: &Key) -> Result<bool, HostError>
        requires own { IsOwnKey key.now }
        ensures gives { Gives (P.state port.old) (P.state port.new) (delete_of key.now)
            existed result }
        ensures tests { IfOk result (λ there. Tests (P.state port.old) key.now there) }
        ensures deletes { IfOk result
            (λ there. Deletes (P.state port.old) (P.state port.new) key.now there) }
        ensures took { P.took port.old (delete_of key.now ∷ []) port.new }
    {
        let asked = Asked {
            opcode: DELETE,
            size: 0,
            options: 0,
        };
        match ask(port, asked, key.bytes(), &[], &mut []) {
            Ok(received) => existed_by(received.status),
            Err(error) => Err(error),
        }
    }

    /// Whether a key exists. `Refused` if a read failed, `Port` if the port did.
    pub fn exist<P: Port>(&mut self, port: &mut P, key: &Key) -> Result<bool, HostError>
        requires own { IsOwnKey key.now }
        ensures gives { Gives (P.state port.old) (P.state port.new) (exist_of key.now)
            existed result }
        ensures tests { IfOk result (λ there. Tests (P.state port.old) key.now there) }
        ensures leaves { OnOk result (Leaves (P.state port.old) (P.state port.new) (λ m. m)) }
        ensures took { P.took port.old (exist_of key.now ∷ []) port.new }
    {
        let asked = Asked {
            opcode: EXIST,
            size: 0,
            options: 0,
        };
        match ask(port, asked, key.bytes(), &[], &mut []) {
            Ok(received) => existed_by(received.status),
            Err(error) => Err(error),
        }
    }

    /// Fills a page with the keys above this one, with all if there is none; whether there is one.
    pub(crate) fn page_from<P: Port>(
        &mut self,
        port: &mut P,
        from: Option<&Key>,
        page: &mut KeyPage,
    ) -> Result<bool, HostError>
        requires own { IfSome (option_copied from) IsOwnKey }

        // The page of keys, and what it says of the drive's.
        ensures gives { Gives (P.state port.old) (P.state port.new)
            (list_of (key_or_none (option_copied from.entry))) (listed_by page.new) result }
        ensures pages { OnOk result
            (Pages (P.state port.old) (key_or_none (option_copied from.entry)) page.new) }
        ensures follows { IfOk result (λ more.
            Follows (P.state port.old) (key_or_none (option_copied from.entry)) more) }
        ensures known { OnOk result (TellsKeys (P.state port.old)) }

        // What the page has in any case: keys above this one, and none if the call failed.
        ensures above { AllByRecursion (IsBelow (key_or_none (option_copied from.entry))) page.new }
        ensures empty { OnErr result (page.new ≡ []) }

        // The map is unchanged, and the port took this one command.
        ensures leaves { Leaves (P.state port.old) (P.state port.new) (λ m. m) }
        ensures took { P.took port.old (list_of (key_or_none (option_copied from.entry)) ∷ [])
            port.new }
    {
        page.clear();
        let buffer = self.buffer.as_mut_slice();
        let asked = Asked {
            opcode: LIST,
            size: MOST_LIST_BYTES,
            options: 0,
        };
        match ask(port, asked, start_bytes(from), &[], buffer) {
            Ok(received) => match received.status {
                SUCCESSFUL_COMPLETION => {
                    read_keys(&buffer[..received.len as usize], from, page);
                    Ok(page.len() > 0)
                }
                status => Err(HostError::Refused { status }),
            },
            Err(error) => Err(error),
        }
    }
}
