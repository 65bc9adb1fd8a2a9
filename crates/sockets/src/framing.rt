//! Frames of bytes that came, without a reader.
ghost use Rattle.std.specs.Prelude.{MatchOption};
ghost use Rattle.sockets.specs.Frames.{BeginsWith, IsIncomplete};

use crate::reading::length_in;

/// The bytes of the frame that stands first among those that came. None where the rest of it has not come.
pub fn framed(got: &[u8]) -> Option<&[u8]>
    ensures { MatchOption result (IsIncomplete got.now) (λ bytes. BeginsWith got.now bytes.now) }
{
    let (head, rest) = got.split_at_checked(2)?;
    let count = usize::from(length_in(head));
    if rest.len() < count {
        return None;
    }
    Some(&rest[..count])
}
