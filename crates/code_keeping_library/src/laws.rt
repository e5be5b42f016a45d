//! Laws of steps that call the library. These calls do nothing: their clauses are laws.
ghost use Rattle.code_keeping_library.specs.Laws.{ErrorsAreGiven, InputIsDone, ListsAreMade, MeasuresAreDone, MembersAreGiven, OutputIsDone, TextCallsAreDone, TextsAreMade, ValuesArePrinted};

/// What a frame of well-typed code asks for fits, whatever comes, and something comes, where it calls the library to write or read, to ask
/// for the length, a key or members of a structure, about an int, a string or an error, or for a string that is made of another one or of
/// any value.
pub fn calls_are_done()
    ensures output { OutputIsDone }
    ensures input { InputIsDone }
    ensures measures { MeasuresAreDone }
    ensures texts { TextCallsAreDone }
    ensures made { TextsAreMade }
    ensures lists { ListsAreMade }
    ensures members { MembersAreGiven }
    ensures errors { ErrorsAreGiven }
    ensures printed { ValuesArePrinted }
{}
