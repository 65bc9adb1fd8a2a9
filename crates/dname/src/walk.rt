//! Names in wire form, walked label by label (RFC 1035, section 3.1).
ghost use Rattle.std.specs.Prelude.{◌≡◌, ℕ, ◌≤◌, ◌<◌, ◌++◌, List, length, MatchOption};
ghost use Rattle.dname.specs.Labels.{root, wire, is_under};
ghost use Rattle.dname.specs.Wire.{labels_of, IsWire, IsSplit};

/// The first label of a name in wire form and the wire form behind it; none at the root (RFC 1035, section 3.1). Of 3
/// `www` 1 `a` 0 it is `www` and 1 `a` 0. A walk over a name's labels is a loop of these calls.
pub fn next_label(bytes: &[u8]) -> Option<(&[u8], &[u8])>
    requires { IsWire bytes.now }
    ensures { MatchOption result (labels_of bytes.now ≡ root) (λ p. IsSplit bytes.now p.0.now p.1.now) }
{
    let size = usize::from(bytes[0]);
    if size == 0 {
        return None;
    }
    let (_, rest) = bytes.split_at(1);
    Some(rest.split_at(size))
}

// The longest end of a name that has at most `size` bytes. No other end can equal a name of that size.
fn tail(bytes: &[u8], size: usize) -> &[u8]
    requires wire { IsWire bytes.now }
    requires some { 0 < size }
    ensures wire { IsWire result.now }
    ensures short { length result.now ≤ size }
    ensures end { (front : List ℕ) × (bytes.now ≡ front ++ result.now) }
    ensures under { (n : List (List ℕ)) → length (wire n) ≡ size → is_under (labels_of bytes.now) n ≡ is_under (labels_of result.now) n }
{
    let mut rest = bytes;
    while let Some((_, after)) = next_label(rest) {
        if rest.len() <= size {
            return rest;
        }
        rest = after;
    }
    rest
}

// Whether the labels of `other` are the last ones of `bytes`. Its bytes are compared first: where they differ, as they
// mostly do, no label is passed.
pub fn has_end(bytes: &[u8], other: &[u8]) -> bool
    requires wire { IsWire bytes.now }
    requires other { IsWire other.now }
    ensures { result ≡ is_under (labels_of bytes.now) (labels_of other.now) }
{
    bytes.ends_with(other) && tail(bytes, other.len()).len() == other.len()
}
