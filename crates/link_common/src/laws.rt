//! Theorems about `==` of the structs in the attributes of a link. The function has an empty body.

ghost use Rattle.std.specs.Prelude.{◌≡◌, ◌↔◌, IsTrue};
ghost use Rattle.link_common.specs.declared.link_map.LinkMap.{LinkMap};
ghost use Rattle.link_common.specs.declared.cache_info.CacheInfo.{CacheInfo};

use crate::cache_info::CacheInfo;
use crate::link_map::LinkMap;

/// Proves that two values of `LinkMap` or `CacheInfo` compare equal if and only if they are the same.
pub fn equality_of_values()
    ensures map { (a b : LinkMap) → IsTrue (⟦<LinkMap as PartialEq>⟧.eq a b) ↔ (a ≡ b) }
    ensures info { (a b : CacheInfo) → IsTrue (⟦<CacheInfo as PartialEq>⟧.eq a b) ↔ (a ≡ b) }
{}
