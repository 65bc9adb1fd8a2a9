//! Laws of lists of entries: functions that do nothing, whose clauses are proved.

ghost use Rattle.std.specs.Prelude.{◌≡◌, ℕ, ◌+◌, ◌<◌, ◌≤◌, ◌⊎◌, Bool, false, List, Some, None, option_map, Contains};
ghost use Rattle.std.specs.List.{IsDistinct};
ghost use Rattle.std.specs.Map.{keys_of, lookup, remove_entry};
ghost use Rattle.lru.specs.LruCache.{lru_cache, IsValid, put_entries, promoted};
ghost use Rattle.lru_laws.specs.Orders.{IsExact, IsWithin, kept, used, mapped, KeepsOnly, LosesOnly, HasSame, MayGo};

/// What `put` leaves: the entry put, first; nothing else is new; and what goes is the old entry of its key,
/// or what stood past the capacity where the key had none. A look-up then finds it, and of any other key
/// what it found before, or nothing.
pub fn kept_law<K, V>()
    ensures put { (same : K → K → Bool) (cap : ℕ) (k : K) (v : V) (es : List (K × V)) → IsExact same → put_entries same (lru_cache es cap) k v ≡ kept same cap k v es }
    ensures there { (same : K → K → Bool) (cap : ℕ) (k : K) (v : V) (es : List (K × V)) → Contains (kept same cap k v es) (k, v) }
    ensures only { (same : K → K → Bool) (cap : ℕ) (k : K) (v : V) (es : List (K × V)) → KeepsOnly es (λ e. e ≡ (k, v)) (kept same cap k v es) }
    ensures gone { (same : K → K → Bool) (cap : ℕ) (k : K) (v : V) (es : List (K × V)) → IsExact same → LosesOnly es (MayGo same cap k es) (kept same cap k v es) }
    ensures found { (same : K → K → Bool) (cap : ℕ) (k : K) (v : V) (es : List (K × V)) → IsExact same → lookup (same k) (kept same cap k v es) ≡ Some v }
    ensures others { (same : K → K → Bool) (cap : ℕ) (k : K) (v : V) (es : List (K × V)) (j : K) → IsExact same → same j k ≡ false
        → (lookup (same j) (kept same cap k v es) ≡ lookup (same j) es) ⊎ (lookup (same j) (kept same cap k v es) ≡ None) }
{}

/// What `promote` leaves: the entry of the key first, the same entries, and the same answers.
pub fn used_law<K, V>()
    ensures promoted { (same : K → K → Bool) (k : K) (es : List (K × V)) → IsExact same → promoted (same k) es ≡ used same k es }
    ensures members { (same : K → K → Bool) (k : K) (es : List (K × V)) → IsExact same → HasSame es (used same k es) }
    ensures found { (same : K → K → Bool) (k j : K) (es : List (K × V)) → IsExact same → lookup (same j) (used same k es) ≡ lookup (same j) es }
{}

/// What `pop` leaves: nothing is new, and of other keys nothing goes and every answer stays.
pub fn removed_law<K, V>()
    ensures only { (test : K → Bool) (es : List (K × V)) (e : K × V) → Contains (remove_entry test es) e → Contains es e }
    ensures gone { (same : K → K → Bool) (k : K) (es : List (K × V)) → IsExact same → LosesOnly es (λ e. e.0 ≡ k) (remove_entry (same k) es) }
    ensures others { (same : K → K → Bool) (k j : K) (es : List (K × V)) → IsExact same → same j k ≡ false → lookup (same j) (remove_entry (same k) es) ≡ lookup (same j) es }
{}

/// How far back an entry goes, so that with fewer keeps and uses than the capacity it is still found: it is
/// kept at the first place, goes down by one place at most where another key is kept in a list that has room
/// for it or any key is used, and by none where another key's entry is removed.
pub fn places_law<K, V>()
    ensures put { (same : K → K → Bool) (cap : ℕ) (k : K) (v : V) (es : List (K × V)) → IsExact same → IsWithin same 1 k v (kept same cap k v es) }
    ensures kept { (same : K → K → Bool) (cap n : ℕ) (k j : K) (v w : V) (es : List (K × V)) → IsExact same → same k j ≡ false → n < cap
        → IsWithin same n k v es → IsWithin same (n + 1) k v (kept same cap j w es) }
    ensures used { (same : K → K → Bool) (n : ℕ) (k j : K) (v : V) (es : List (K × V)) → IsExact same → IsWithin same n k v es → IsWithin same (n + 1) k v (used same j es) }
    ensures removed { (same : K → K → Bool) (n : ℕ) (k j : K) (v : V) (es : List (K × V)) → IsExact same → same k j ≡ false → IsWithin same n k v es → IsWithin same n k v (remove_entry (same j) es) }
    ensures further { (same : K → K → Bool) (n m : ℕ) (k : K) (v : V) (es : List (K × V)) → n ≤ m → IsWithin same n k v es → IsWithin same m k v es }
    ensures found { (same : K → K → Bool) (n : ℕ) (k : K) (v : V) (es : List (K × V)) → IsWithin same n k v es → lookup (same k) es ≡ Some v }
{}

/// No two entries have one key and there are no more of them than the capacity, whatever is kept, used or
/// removed. So an entry that is there is found, and what was removed is not.
pub fn keys_law<K, V>()
    ensures kept { (same : K → K → Bool) (cap : ℕ) (k : K) (v : V) (es : List (K × V)) → IsExact same → IsValid same (lru_cache es cap) → IsValid same (lru_cache (kept same cap k v es) cap) }
    ensures used { (same : K → K → Bool) (cap : ℕ) (k : K) (es : List (K × V)) → IsExact same → IsValid same (lru_cache es cap) → IsValid same (lru_cache (used same k es) cap) }
    ensures removed { (same : K → K → Bool) (cap : ℕ) (k : K) (es : List (K × V)) → IsExact same → IsValid same (lru_cache es cap) → IsValid same (lru_cache (remove_entry (same k) es) cap) }
    ensures found { (same : K → K → Bool) (k : K) (v : V) (es : List (K × V)) → IsExact same → IsDistinct same (keys_of es) → Contains es (k, v) → lookup (same k) es ≡ Some v }
    ensures missed { (same : K → K → Bool) (k : K) (es : List (K × V)) → IsExact same → IsDistinct same (keys_of es) → lookup (same k) (remove_entry (same k) es) ≡ None }
{}

/// Entries with other values, which may be made of their keys too, are looked up, kept, used and removed
/// alike, and have the same keys.
pub fn mapped_law<K, V, W>()
    ensures valid { (f : K → V → W) (same : K → K → Bool) (cap : ℕ) (es : List (K × V)) → IsValid same (lru_cache es cap) → IsValid same (lru_cache (mapped f es) cap) }
    ensures found { (f : K → V → W) (same : K → K → Bool) (k : K) (es : List (K × V)) → IsExact same → lookup (same k) (mapped f es) ≡ option_map (f k) (lookup (same k) es) }
    ensures kept { (f : K → V → W) (same : K → K → Bool) (cap : ℕ) (k : K) (v : V) (es : List (K × V)) → IsExact same → kept same cap k (f k v) (mapped f es) ≡ mapped f (kept same cap k v es) }
    ensures used { (f : K → V → W) (same : K → K → Bool) (k : K) (es : List (K × V)) → IsExact same → used same k (mapped f es) ≡ mapped f (used same k es) }
    ensures removed { (f : K → V → W) (test : K → Bool) (es : List (K × V)) → remove_entry test (mapped f es) ≡ mapped f (remove_entry test es) }
{}
