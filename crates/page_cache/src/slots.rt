//! Slots, each the name of a resident page with its frame: in the order of last use, and in the order of the names.
ghost use Rattle.std.specs.Prelude.{◌≡◌, ◌∷◌, ◌<◌, ◌≤◌, length, map, filter, count_by, not, None, OnOk, OnErr, IfOk};
ghost use Rattle.std.specs.List.{find};
ghost use Rattle.std.specs.Option.{option_map};
ghost use Rattle.lru.specs.LruCache.{lru_cache};
ghost use Rattle.std.specs.BTreeMap.{IsOrdered};
ghost use Rattle.page_cache.specs.Insides.{name_cmp, slot_is, first_name, last_name, is_between, IsIndex};

use lru::LruCache;
use page_frames::FrameNo;
use std::alloc::{AllocError, Global};
use std::collections::BTreeMap;
use std::ops::Bound;
use uid_names::{NoMemory, Uid};

/// Which page of which object.
#[derive(Clone, Copy, PartialEq, Eq, PartialOrd, Ord, Hash)]
pub(crate) struct PageName {
    pub(crate) uid: Uid,
    pub(crate) page: u32,
}

/// The slots, the last used one first.
pub(crate) type Order = LruCache<PageName, FrameNo>;

/// The slots by their names.
pub(crate) type Index = BTreeMap<PageName, FrameNo>;

/// From the least to the greatest name of a page of this object.
pub(crate) fn names_of(uid: Uid) -> (Bound<PageName>, Bound<PageName>)
    ensures { result ≡ (first_name uid, last_name uid) }
{
    (
        Bound::Included(PageName { uid, page: 0 }),
        Bound::Included(PageName {
            uid,
            page: u32::MAX,
        }),
    )
}

/// The numbers of the object's pages, rising.
pub(crate) fn numbers_of(alloc: Global, index: &Index, uid: Uid) -> Result<Vec<u32>, AllocError>
    ensures pages { IfOk result (λ v. v.items ≡ map (λ s. s.0.page) (filter (λ s. is_between uid s.0) index.now.entries)) }
    ensures ordered { IsOrdered name_cmp index.now }
{
    index
        .range(names_of(uid))
        .map(|(name, _)| name.page)
        .collect(alloc)
}

/// Enters a page that has no slot, as the last used one; without memory nothing changes.
pub(crate) fn enter(
    order: &mut Order,
    index: &mut Index,
    name: PageName,
    frame: FrameNo,
) -> Result<(), NoMemory>
    requires indexed { IsIndex index.old.entries order.old.entries }
    requires absent { find (slot_is name.uid name.page) order.old.entries ≡ None }
    requires room { length order.old.entries < order.old.cap }
    ensures order { OnOk result (order.new ≡ lru_cache ((name, frame) ∷ order.old.entries) order.old.cap) }
    ensures index { IsIndex index.new.entries order.new.entries }
    ensures err { OnErr result (order.new ≡ order.old) }
{
    order.put(name, frame)?;
    match index.insert(name, frame) {
        Ok(_) => Ok(()),
        Err(_) => {
            order.pop(&name);
            Err(NoMemory)
        }
    }
}

/// Takes a page's slot, if there is one, out of both. Takes no memory.
pub(crate) fn leave(order: &mut Order, index: &mut Index, name: PageName) -> Option<FrameNo>
    requires indexed { IsIndex index.old.entries order.old.entries }
    requires once { count_by (slot_is name.uid name.page) order.old.entries ≤ 1 }
    ensures frame { result ≡ option_map (λ s. s.1) (find (slot_is name.uid name.page) order.old.entries) }
    ensures order { order.new ≡ lru_cache (filter (λ s. not (slot_is name.uid name.page s)) order.old.entries) order.old.cap }
    ensures index { IsIndex index.new.entries order.new.entries }
{
    index.remove(&name);
    order.pop(&name)
}
