ghost use Rattle.ipc_trace.specs.PartReading.{LinesAreOfTheirPart, PartsAreReadBack};

/// The lines that were read, one after the other, are exactly those of the part that they say.
pub fn lines_are_of_their_part()
    ensures { LinesAreOfTheirPart }
{}

/// The lines of each part that can be written follow one another, and say that part.
pub fn parts_are_read_back()
    ensures { PartsAreReadBack }
{}
