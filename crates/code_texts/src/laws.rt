//! Worked texts. This call does nothing: its clauses are laws.
ghost use Rattle.code_texts.specs.Worked.{MakesAndTests, SendsAndWaits, SumIsPrinted};

/// The text of the code that prints a sum, and those of instructions of workers and of structures.
pub fn worked_codes_have_these_texts()
    ensures sum { SumIsPrinted }
    ensures workers { SendsAndWaits }
    ensures structures { MakesAndTests }
{}
