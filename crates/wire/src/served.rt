//! Which records are read and not skipped: those of a served type, in class IN.
ghost use Rattle.std.specs.Prelude.{◌≡◌};
ghost use Rattle.message_grammar.specs.Messages.{served_type};

use rdata::{INTERNET, RType};

// The type of a record that is not skipped, a served one in class IN: A of type 1 and class 1; none of type 65, or of
// class 3.
pub fn served_type(kind: u16, class: u16) -> Option<RType>
    ensures { result ≡ served_type kind class }
{
    if class == INTERNET {
        RType::from_number(kind)
    } else {
        None
    }
}
