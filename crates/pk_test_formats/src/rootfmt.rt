//! Root pages by their bytes.
ghost use Rattle.std.specs.Prelude.{◌≡◌};

use pk_base::{Shape, put_u16, put_u32};
use pk_rootfmt::{BadRoot, Root, first};
use std::alloc::Allocator;
use std::test::*;

/// The first root on a flash of 64 blocks of 16 pages of 512 bytes.
fn first_page() -> [u8; 512] {
    let mut page = [0u8; 512];
    page[..28].copy_from_slice(&[
        0x50, 0x49, 0x4e, 0x4b, 0x52, 0x4f, 0x4f, 0x54, 2, 0, 16, 0, 0, 2, 0, 0, 64, 0, 2, 0, 0, 0,
        0, 0, 1, 0, 0, 0,
    ]);
    page[32] = 1;
    page[64..68].copy_from_slice(&[2, 0, 3, 0]);
    page
}

/// Root 7 with epoch 3 in blocks 5 and 6, the older one in 2 and 3, and run 1 of 20 entries in block 9.
fn later_page() -> [u8; 512] {
    let mut page = first_page();
    page[18] = 4;
    page[24] = 7;
    page[32] = 3;
    page[40] = 20;
    page[64..74].copy_from_slice(&[5, 0, 6, 0, 2, 0, 3, 0, 9, 0]);
    page
}

/// The first root of a drive with two namespaces, which have limits of 100 and 392 pages.
fn limits_page() -> [u8; 512] {
    let mut page = first_page();
    page[8] = 3;
    page[20] = 2;
    put_u32(&mut page, 64, 100);
    put_u32(&mut page, 68, 392);
    put_u16(&mut page, 96, 2);
    put_u16(&mut page, 98, 3);
    page
}

/// The page with another byte at this place.
fn changed(page: [u8; 512], place: usize, byte: u8) -> [u8; 512] {
    let mut page = page;
    if let Some(old) = page.get_mut(place) {
        *old = byte;
    }
    page
}

/// The first wrong field of a page of this shape; none if it is read as a root.
fn wrong_byte<A: Allocator + Clone>(alloc: A, shape: &Shape, page: &[u8]) -> Option<u32> {
    if page.len() != shape.page_bytes() as usize {
        return None;
    }
    let Ok(mut root) = Root::new(alloc, *shape) else {
        return None;
    };
    match root.decode(page) {
        Ok(()) => None,
        Err(BadRoot { at }) => Some(at),
    }
}

/// The numbers and blocks of the first root.
fn is_first<A: Allocator>(root: &Root<A>) -> bool {
    (root.number(), root.epoch(), root.newest()) == (1, 1, [2, 3])
        && root.older().is_none()
        && root.entries(4) == 0
        && root.blocks(1).is_empty()
}

/// The first page is written as it is to be.
fn writes_first(shape: &Shape) -> bool {
    if shape.page_bytes() != 512 {
        return false;
    }
    let mut page = [0xffu8; 512];
    first(shape, &mut page, &[]);
    page == first_page()
}

/// A root without numbers becomes the first one.
fn reads_first<A: Allocator>(root: &mut Root<A>, shape: &Shape) -> bool
    requires { root.old.shape ≡ shape.now }
{
    if shape.page_bytes() != 512 || root.number() != 0 || root.newest() != [0, 0] {
        return false;
    }
    root.decode(&first_page()).is_ok() && is_first(root)
}

/// The numbers and blocks of the later root.
fn is_later<A: Allocator>(root: &Root<A>) -> bool {
    (root.number(), root.epoch(), root.newest()) == (7, 3, [5, 6])
        && root.older() == Some([2, 3])
        && (root.entries(1), root.entries(2)) == (20, 0)
        && root.blocks(1) == [9u16].as_slice()
}

/// The later root is read, written, and kept if no root is read.
fn later_goes_both_ways<A: Allocator>(root: &mut Root<A>, shape: &Shape) -> bool
    requires { root.old.shape ≡ shape.now }
{
    if shape.page_bytes() != 512 {
        return false;
    }
    match root.decode(&later_page()) {
        Ok(()) => {}
        Err(_) => return false,
    }
    let mut page = [0xffu8; 512];
    root.encode(&mut page);
    let is_refused = root.decode(&[0u8; 512]) == Err(BadRoot { at: 0 });
    page == later_page() && is_refused && is_later(root)
}

/// A root without numbers becomes the one with limits, which is written again; then the first one, which
/// has none.
fn limits_go_both_ways<A: Allocator>(root: &mut Root<A>, shape: &Shape) -> bool
    requires { root.old.shape ≡ shape.now }
{
    if shape.page_bytes() != 512 {
        return false;
    }
    match root.decode(&limits_page()) {
        Ok(()) => {}
        Err(_) => return false,
    }
    let mut page = [0xffu8; 512];
    root.encode(&mut page);
    let spaces = root.spaces();
    let last = root.space_limit(spaces);
    let first = root.space_limit(1);
    let is_without = root.decode(&first_page()).is_ok()
        && (root.spaces(), root.space_limit(1)) == (1, 492);
    page == limits_page() && (spaces, first, last) == (2, 100, 392) && is_without
}

/// The numbers and blocks of a root whose parts were set.
fn is_set<A: Allocator>(root: &Root<A>) -> bool {
    (root.number(), root.epoch(), root.newest()) == (9, 4, [7, 8])
        && root.older() == Some([5, 6])
        && root.entries(3) == 300
        && root.blocks(1) == [9u16].as_slice()
        && root.blocks(3) == [10u16, 11].as_slice()
}

/// The parts of a root are set, and then the older epoch is taken away.
fn sets_parts<A: Allocator + Clone>(alloc: A, shape: &Shape) -> bool {
    if shape.meta_blocks() < 4 {
        return false;
    }
    let Ok(mut root) = Root::new(alloc, *shape) else {
        return false;
    };
    root.set_number(9);
    root.set_epochs(4, [7, 8], Some([5, 6]));
    root.set_run(3, 300, &[10, 11]);
    root.set_run(1, 20, &[9]);
    let is_set = is_set(&root);
    root.set_epochs(5, [7, 8], None);
    is_set && root.older().is_none()
}

/// A byte that is put at a place, and the first wrong field then.
type Row = (usize, u8, u32);

const FIRST_WRONG: &[Row] = &[
    (0, 0, 0),
    (7, 0, 0),
    (8, 1, 8),
    (8, 3, 20),
    (8, 4, 8),
    (9, 1, 8),
    (10, 8, 10),
    (12, 1, 12),
    (16, 65, 16),
    (18, 3, 18),
    (18, 4, 32),
    (20, 1, 20),
    (23, 1, 20),
    (24, 0, 24),
    (32, 0, 32),
    (32, 2, 32),
    (40, 61, 40),
    (44, 241, 44),
    (49, 4, 48),
    (53, 5, 52),
    (56, 1, 56),
    (63, 1, 56),
    (64, 1, 64),
    (64, 64, 64),
    (66, 2, 66),
    (40, 1, 68),
    (68, 1, 68),
    (511, 1, 68),
];

const LATER_WRONG: &[Row] = &[
    (24, 2, 32),
    (32, 1, 32),
    (66, 5, 66),
    (68, 1, 68),
    (70, 6, 70),
    (18, 2, 70),
    (72, 3, 72),
    (73, 1, 72),
    (40, 0, 72),
    (74, 1, 74),
    (75, 1, 74),
];

/// Counts and limits: two of them, together as many pages as the drive has, and zeros after them.
const LIMITS_WRONG: &[Row] = &[
    (8, 2, 20),
    (20, 0, 20),
    (20, 1, 68),
    (20, 3, 72),
    (20, 8, 72),
    (20, 9, 20),
    (21, 1, 20),
    (64, 0, 64),
    (64, 101, 68),
    (65, 2, 64),
    (68, 137, 68),
    (72, 1, 72),
    (95, 1, 92),
    (96, 1, 96),
    (98, 2, 98),
    (100, 1, 100),
];

/// Whether each of these changes of a page is found.
fn are_found<A: Allocator + Copy>(alloc: A, shape: &Shape, page: &[u8; 512], rows: &[Row]) -> bool {
    for (place, byte, at) in rows {
        if wrong_byte(alloc, shape, &changed(*page, *place, *byte)) != Some(*at) {
            return false;
        }
    }
    true
}

/// A root without numbers is read: the first one, or the later one, which is written, too.
fn reads<A: Allocator + Clone>(alloc: A, shape: &Shape, is_first: bool) -> bool {
    let Ok(mut root) = Root::new(alloc, *shape) else {
        return false;
    };
    if is_first {
        return reads_first(&mut root, shape);
    }
    later_goes_both_ways(&mut root, shape)
}

/// A root without numbers is read with limits.
fn reads_limits<A: Allocator + Clone>(alloc: A, shape: &Shape) -> bool {
    match Root::new(alloc, *shape) {
        Ok(mut root) => limits_go_both_ways(&mut root, shape),
        Err(_) => false,
    }
}

/// Roots are written and read, their parts are set, and each field in turn is wrong.
fn are_roots<A: Allocator + Copy>(alloc: A, shape: &Shape) -> bool {
    writes_first(shape)
        && reads(alloc, shape, true)
        && reads(alloc, shape, false)
        && reads_limits(alloc, shape)
        && sets_parts(alloc, shape)
        && are_found(alloc, shape, &first_page(), FIRST_WRONG)
        && are_found(alloc, shape, &later_page(), LATER_WRONG)
        && are_found(alloc, shape, &limits_page(), LIMITS_WRONG)
}

#[test]
fn roots(rt: HostRuntime) {
    let all = match Shape::new(512, 16, 64) {
        Ok(shape) => are_roots(rt.alloc(), &shape),
        Err(_) => false,
    };
    assert!(rt; all);
}
