//! An entry kept for a time.
ghost use Rattle.std.specs.Prelude.{◌≡◌, OnOk, OnErr};
ghost use Rattle.lru.specs.LruCache.{lru_cache};
ghost use Rattle.lru_laws.specs.Stores.{put_for};

use lru::LruCache;
use memory::{Heap, Starved};
use std::hash::{BuildHasher, Hash};

/// Keeps the value under its key for `ttl` seconds, as the most recently used. With TTL 0 it is not kept, and what
/// stood under its key goes. Running out of memory changes nothing.
pub fn keep_for<K: Eq + Hash + Drop, V: Drop, S: BuildHasher, A: Heap>(
    entries: &mut LruCache<K, V, S, A>,
    key: K,
    value: V,
    ttl: u32,
) -> Result<(), Starved>
    ensures ok { OnOk result (entries.new ≡ lru_cache (put_for K.eq entries.old key value ttl) entries.old.cap) }
    ensures err { OnErr result (entries.new ≡ entries.old) }
{
    if ttl == 0 {
        drop(entries.pop(&key));
        return Ok(());
    }
    drop(entries.put(key, value)?);
    Ok(())
}
