// What is read as a capture.
ghost use Rattle.ibos_capture.specs.Layouts.{IsWholeGrammar};

/// Captures, and nothing else, are read without a fault: a header, and entries one after the other,
/// up to the end of the file. What is read are their frames.
pub fn captures_law()
    ensures { IsWholeGrammar }
{}
