//! Values that are fetched whole.
ghost use Rattle.std.specs.Prelude.{[], ◌∷◌, OnOk, IfOk, IfErr};
ghost use Rattle.std.specs.Option.{option_map};
ghost use Rattle.pk_host.specs.Calls.{IsOwnKey, retrieve_of};
ghost use Rattle.pk_host.specs.Outcomes.{IsCause, retrieved, AtMostOne, AreRetrieves, TookSome, Leaves, Gets, Cuts, KeyHas};

use crate::host::Host;
use crate::port::Port;
use crate::sizes::FIRST_BYTES;
use crate::types::HostError;
use pk_base::Key;
use std::alloc::Global;

/// A prefix of a value, and the length of the value.
#[derive(Drop)]
struct Front {
    bytes: Vec<u8>,
    whole: u32,
}

impl Host {
    /// The whole value of a key; `None` if the key is missing. `Refused` if a read failed, `Port`
    /// if the port did, `Memory` if it is missing for the value.
    pub fn retrieve_whole<P: Port>(
        &mut self,
        alloc: Global,
        port: &mut P,
        key: &Key,
    ) -> Result<Option<Vec<u8>>, HostError>
        requires own { IsOwnKey key.now }
        ensures gets { IfOk result (λ value.
            Gets (P.state port.old) key.now (option_map (λ v. v.items) value)) }
        ensures causes { IfErr result (λ e. IsCause (P.state port.old) (P.state port.new)
            retrieved e) }
        ensures leaves { OnOk result (Leaves (P.state port.old) (P.state port.new) (λ m. m)) }
        ensures took { TookSome P.took (AreRetrieves key.now) port.old port.new }
    {
        match self.front(alloc, port, key, FIRST_BYTES) {
            Ok(Some(Front { bytes, whole })) => {
                if whole <= FIRST_BYTES {
                    return Ok(Some(bytes));
                }
                self.again(alloc, port, key, whole)
            }
            Ok(None) => Ok(None),
            Err(error) => Err(error),
        }
    }

    /// The first bytes of the value of a key, at most this many.
    fn again<P: Port>(
        &mut self,
        alloc: Global,
        port: &mut P,
        key: &Key,
        most: u32,
    ) -> Result<Option<Vec<u8>>, HostError>
        requires own { IsOwnKey key.now }
        ensures gets { IfOk result (λ value.
            KeyHas (P.state port.old) key.now most (option_map (λ v. v.items) value)) }
        ensures causes { IfErr result (λ e. IsCause (P.state port.old) (P.state port.new)
            retrieved e) }
        ensures leaves { OnOk result (Leaves (P.state port.old) (P.state port.new) (λ m. m)) }
        ensures took { TookSome P.took (AtMostOne (retrieve_of key.now most)) port.old port.new }
    {
        match self.front(alloc, port, key, most) {
            Ok(Some(Front { bytes, .. })) => Ok(Some(bytes)),
            Ok(None) => Ok(None),
            Err(error) => Err(error),
        }
    }

    /// The first bytes of the value of a key, at most this many, and the whole length.
    fn front<P: Port>(
        &mut self,
        alloc: Global,
        port: &mut P,
        key: &Key,
        most: u32,
    ) -> Result<Option<Front>, HostError>
        requires own { IsOwnKey key.now }
        ensures cuts { IfOk result (λ front. Cuts (P.state port.old) key.now most
            (option_map (λ f. f.bytes.items) front) (option_map (λ f. f.whole) front)) }
        ensures causes { IfErr result (λ e. IsCause (P.state port.old) (P.state port.new)
            retrieved e) }
        ensures leaves { OnOk result (Leaves (P.state port.old) (P.state port.new) (λ m. m)) }
        ensures took { TookSome P.took (AtMostOne (retrieve_of key.now most)) port.old port.new }
        ensures asked { OnOk result (P.took port.old (retrieve_of key.now most ∷ []) port.new) }
    {
        let mut bytes = match Vec::from_elem(alloc, 0, most as usize) {
            Ok(bytes) => bytes,
            Err(_) => return Err(HostError::Memory),
        };
        // so that the key is known to be one
        let _ = key.bytes();
        match self.retrieve(port, key, bytes.as_mut_slice()) {
            Ok(Some(whole)) => {
                bytes.truncate(whole as usize);
                Ok(Some(Front { bytes, whole }))
            }
            Ok(None) => Ok(None),
            Err(error) => Err(error),
        }
    }
}
