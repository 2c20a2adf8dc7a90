//! Laws of the reads of a text and of the writes of bytes, by their answers.

ghost use Rattle.script_text.specs.StreamLaws.{
  TextHasCome,
  ReadingIsDetermined,
  TextCanBeRead,
  KnownTextIsRead,
  BytesAreTaken,
  BytesCanBeWritten,
};

/// If a text is read to its end, all its bytes have come; if it is too long, one byte more than the limit. The answers
/// of the reads determine the result, unless memory is refused; and each text within the limit can be read.
pub fn text_is_read()
    ensures come { TextHasCome }
    ensures determined { ReadingIsDetermined }
    ensures possible { TextCanBeRead }
    ensures known { KnownTextIsRead }
{}

/// Writes that end without a fault took all bytes, and others did not; and all bytes can be written.
pub fn bytes_are_written()
    ensures taken { BytesAreTaken }
    ensures possible { BytesCanBeWritten }
{}
