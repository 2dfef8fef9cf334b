// What is proved of readings for whoever asks for a sheet, as the promise of a function that does nothing.
ghost use Rattle.sheet.specs.Laws.{ReadableByRules};

// By rules that each have an atom there is a reading.
pub fn readable()
    ensures { ReadableByRules }
{}
