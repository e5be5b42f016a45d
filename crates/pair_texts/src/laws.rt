//! Worked texts. This call does nothing: its clauses are laws.
ghost use Rattle.pair_texts.specs.Worked.{DefaultIsWritten, ModuleIsWritten, TalkIsWritten};

/// The lines of two workers that send to each other, of a message of the default worker, and the name of a function of
/// another module.
pub fn worked_pairs_have_these_texts()
    ensures talk { TalkIsWritten }
    ensures default_worker { DefaultIsWritten }
    ensures other_module { ModuleIsWritten }
{}
