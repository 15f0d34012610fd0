//! The calls of a host, with values that the definition is to give.
ghost use Rattle.std.specs.Prelude.{IfOk};
ghost use Rattle.pk_host.specs.Calls.{IsOwnKey};

use crate::memory_port::MemoryPort;
use pk_base::{Key, Shape};
use pk_host::{Host, HostError, KeyPage, StoreRule};
use pk_nvme::status::{INVALID_VALUE_SIZE, KEY_DOES_NOT_EXIST, KEY_EXISTS};
use std::alloc::{AllocError, Global};
use std::test::*;

fn port(alloc: Global) -> Result<MemoryPort, Fail> {
    let shape = Shape::new(4096, 64, 512).ok().ok_or("a shape")?;
    Ok(MemoryPort::new(alloc, shape)?)
}

// A key of the namespace that a host has.
fn key(bytes: &[u8]) -> Result<Key, Fail>
    ensures { IfOk result IsOwnKey }
{
    Ok(Key::new(bytes).ok_or("a key")?)
}

// The first `len` bytes.
fn front(bytes: &[u8], len: usize) -> &[u8] {
    &bytes[..len.min(bytes.len())]
}

// A JSON text of 1,000 bytes is stored, and fetched into a buffer.
fn holds_text(host: &mut Host, port: &mut MemoryPort, user: &Key) -> bool
    requires { IsOwnKey user.now }
{
    let text = [b'j'; 1000];
    let mut into = [0u8; 4096];
    host.store(port, user, &text, StoreRule::Any) == Ok(())
        && host.retrieve(port, user, &mut into) == Ok(Some(1000))
        && front(&into, 1000) == text.as_slice()
}

// A value of 5,000 bytes is stored.
fn stores_large(host: &mut Host, port: &mut MemoryPort, blob: &Key) -> bool
    requires { IsOwnKey blob.now }
{
    host.store(port, blob, &[7u8; 5000], StoreRule::IfAbsent) == Ok(())
}

// The value of 5,000 bytes is fetched whole.
fn gives_large(alloc: Global, host: &mut Host, port: &mut MemoryPort, blob: &Key) -> bool
    requires { IsOwnKey blob.now }
{
    match host.retrieve_whole(alloc, port, blob) {
        Ok(Some(value)) => value.as_slice() == [7u8; 5000].as_slice(),
        _ => false,
    }
}

// These are all keys.
fn lists(alloc: Global, host: &mut Host, port: &mut MemoryPort, keys: &[Key]) -> bool {
    match host.list_all(alloc, port) {
        Ok(all) => all.as_slice() == keys,
        Err(_) => false,
    }
}

// The calls of a service, each answered as it is to be.
fn serves(alloc: Global, host: &mut Host, port: &mut MemoryPort, user: Key, blob: Key) -> bool
    requires { IsOwnKey user × IsOwnKey blob }
{
    holds_text(host, port, &user)
        && stores_large(host, port, &blob)
        && gives_large(alloc, host, port, &blob)
        && lists(alloc, host, port, &[blob, user])
}

// As a service uses it: a JSON text of 1,000 bytes under a key of 16, a value of 5,000 bytes that is fetched whole, and all keys.
#[test]
fn a_service(rt: HostRuntime) -> Result<(), Fail> {
    let user = key(b"user:00000000042")?;
    let blob = key(b"blob")?;
    let mut port = port(rt.alloc())?;
    let mut host = Host::new(rt.alloc())?;
    assert!(rt; serves(rt.alloc(), &mut host, &mut port, user, blob));
    Ok(())
}

// The calls for a key that is not there.
fn refuses_absent(host: &mut Host, port: &mut MemoryPort, a: &Key) -> bool
    requires { IsOwnKey a.now }
{
    let refused = Err(HostError::Refused {
        status: KEY_DOES_NOT_EXIST,
    });
    host.store(port, a, b"x", StoreRule::IfExists) == refused
        && host.exist(port, a) == Ok(false)
        && host.delete(port, a) == Ok(false)
        && host.retrieve(port, a, &mut [0u8; 2]) == Ok(None)
}

// The Stores under a key that exists, and of a value that is too long.
fn refuses_present(host: &mut Host, port: &mut MemoryPort, a: &Key) -> bool
    requires { IsOwnKey a.now }
{
    let refused = Err(HostError::Refused { status: KEY_EXISTS });
    let too_long = Err(HostError::Refused {
        status: INVALID_VALUE_SIZE,
    });
    host.store(port, a, b"hello", StoreRule::IfAbsent) == Ok(())
        && host.store(port, a, b"x", StoreRule::IfAbsent) == refused
        && host.store(port, a, &[0; 65505], StoreRule::Any) == too_long
}

// The calls for the key that exists.
fn gives_front(host: &mut Host, port: &mut MemoryPort, a: &Key) -> bool
    requires { IsOwnKey a.now }
{
    let mut into = [0u8; 2];
    host.retrieve(port, a, &mut into) == Ok(Some(5))
        && into == *b"he"
        && host.exist(port, a) == Ok(true)
        && host.delete(port, a) == Ok(true)
}

// A page of keys has none.
fn lists_none(alloc: Global, host: &mut Host, port: &mut MemoryPort) -> Result<bool, AllocError> {
    let mut page = KeyPage::new(alloc)?;
    Ok(host.list_page(port, None, &mut page) == Ok(false))
}

// Every status that a call makes an answer or a refusal of.
#[test]
fn refusals(rt: HostRuntime) -> Result<(), Fail> {
    let a = key(b"a")?;
    let mut port = port(rt.alloc())?;
    let mut host = Host::new(rt.alloc())?;
    assert!(rt;
        refuses_absent(&mut host, &mut port, &a)
            && refuses_present(&mut host, &mut port, &a)
            && gives_front(&mut host, &mut port, &a)
            && lists_none(rt.alloc(), &mut host, &mut port)?
    );
    Ok(())
}

// An empty value is stored under a number.
fn stores_number(host: &mut Host, port: &mut MemoryPort, n: u32) -> bool {
    match Key::new(&n.to_be_bytes()) {
        Some(key) => host.store(port, &key, &[], StoreRule::Any) == Ok(()),
        None => false,
    }
}

// Empty values are stored under `count` numbers.
fn stores_numbers(host: &mut Host, port: &mut MemoryPort, count: u32) -> bool {
    for n in 0..count {
        if !stores_number(host, port, n) {
            return false;
        }
    }
    true
}

// How many keys are listed after this number, 0 if there is none.
fn keys_from(
    host: &mut Host,
    port: &mut MemoryPort,
    page: &mut KeyPage,
    number: Option<u32>,
) -> Option<u32> {
    let from = match number {
        Some(n) => Key::new(&n.to_be_bytes()),
        None => None,
    };
    match host.list_page(port, from.as_ref(), page) {
        Ok(true) => Some(page.len()),
        Ok(false) => Some(0),
        Err(_) => None,
    }
}

// How many keys are listed after each of these numbers, all into one page.
fn keys_from_each(
    alloc: Global,
    host: &mut Host,
    port: &mut MemoryPort,
    numbers: [Option<u32>; 3],
) -> Result<[Option<u32>; 3], AllocError> {
    let mut page = KeyPage::new(alloc)?;
    Ok([
        keys_from(host, port, &mut page, numbers[0]),
        keys_from(host, port, &mut page, numbers[1]),
        keys_from(host, port, &mut page, numbers[2]),
    ])
}

// How many keys there are in all.
fn count_all(alloc: Global, host: &mut Host, port: &mut MemoryPort) -> Option<usize> {
    match host.list_all(alloc, port) {
        Ok(all) => Some(all.len()),
        Err(_) => None,
    }
}

// Keys over several pages: a List of 65,536 bytes gives 8,191 keys of four bytes.
#[test]
fn pages_of_keys(rt: HostRuntime) -> Result<(), Fail> {
    let mut port = port(rt.alloc())?;
    let mut host = Host::new(rt.alloc())?;
    assert!(rt; stores_numbers(&mut host, &mut port, 9000));
    let numbers = [None, Some(8190), Some(8999)];
    assert!(rt;
        keys_from_each(rt.alloc(), &mut host, &mut port, numbers)?
            == [Some(8191), Some(809), Some(0)]
    );
    assert!(rt; count_all(rt.alloc(), &mut host, &mut port) == Some(9000));
    Ok(())
}
