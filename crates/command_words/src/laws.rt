//! Laws of commands. These calls do nothing: their clauses are the laws.
ghost use Rattle.command_words.specs.Cases.{Cases};
ghost use Rattle.command_words.specs.Laws.{CommandsAreOne};

/// The same words never ask for two things.
pub fn words_say_one_thing()
    ensures { CommandsAreOne }
{}

/// Some words, and whether they are a command.
pub fn words_of_cases()
    ensures { Cases }
{}
