//! The law of formatted lines.

ghost use Rattle.nvme_lines.specs.LineLaws.{LinesAreReadBack, LinesFit, ReadingIsWritten};

/// The text of a line is parsed as that line, if the line's numbers fit the bits that the grammar gives them, and its
/// data are whole blocks, at most 256 or none. What the grammar parses from a text is such a line, and so it parses the
/// same from the text of that line.
pub fn lines_are_read_back()
    ensures back { LinesAreReadBack }
    ensures fit { LinesFit }
    ensures same { ReadingIsWritten }
{}
