//! Laws of the definitions: functions that do nothing, whose clauses are proved.
ghost use Rattle.wire.specs.Laws.{ReadIsMessage, MessageIsRead, EncodingIsReadBack};

/// A message that is read is the one that the bytes are (RFC 1035, section 4), and each message is read.
pub fn decoding_is_message()
    ensures read { ReadIsMessage }
    ensures found { MessageIsRead }
{}

/// An encoding is read back as the message that was encoded.
pub fn encoding_is_read_back()
    ensures { EncodingIsReadBack }
{}
