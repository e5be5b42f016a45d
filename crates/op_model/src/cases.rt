//! Worked cases of the definitions. This call does nothing: its clauses are the cases.
ghost use Rattle.op_model.specs.Cases.{ClonesList, ClonesOnce, ClonesShare, ClonesCycle, ReachesByLevels, Freezes, FreezesNoCycle, FillsWithInts, FillsByLevels, SetsEntries, SetsNewKey, SetsOldKey, SetsNoString, SetsNoImmutable, CountsCells, EqualLists, OtherLists, EqualMappings, EqualCycles, ErrorMade, TextOfList, TextOfCycle, TextOfError, ParsesInts, Trims, MakesThree, WakesBehind, ReceivesLater, SendWakes, ReceivesSent, WaitsForEnd, WaitTakes, WaitsTwice};

/// What the definitions come to on small heaps, texts, strands and messages, as it was reasoned out by hand.
pub fn definitions_come_to_cases()
    ensures clones_list { ClonesList }
    ensures clones_once { ClonesOnce }
    ensures clones_share { ClonesShare }
    ensures clones_cycle { ClonesCycle }
    ensures reaches_by_levels { ReachesByLevels }
    ensures freezes { Freezes }
    ensures freezes_no_cycle { FreezesNoCycle }
    ensures fills_with_ints { FillsWithInts }
    ensures fills_by_levels { FillsByLevels }
    ensures sets_entries { SetsEntries }
    ensures sets_new_key { SetsNewKey }
    ensures sets_old_key { SetsOldKey }
    ensures sets_no_string { SetsNoString }
    ensures sets_no_immutable { SetsNoImmutable }
    ensures counts_cells { CountsCells }
    ensures equal_lists { EqualLists }
    ensures other_lists { OtherLists }
    ensures equal_mappings { EqualMappings }
    ensures equal_cycles { EqualCycles }
    ensures error_made { ErrorMade }
    ensures text_of_list { TextOfList }
    ensures text_of_cycle { TextOfCycle }
    ensures text_of_error { TextOfError }
    ensures parses_ints { ParsesInts }
    ensures trims { Trims }
    ensures makes_three { MakesThree }
    ensures wakes_behind { WakesBehind }
    ensures receives_later { ReceivesLater }
    ensures send_wakes { SendWakes }
    ensures receives_sent { ReceivesSent }
    ensures waits_for_end { WaitsForEnd }
    ensures wait_takes { WaitTakes }
    ensures waits_twice { WaitsTwice }
{}
