//! Worked cases of the definitions. These calls do nothing: their clauses are the cases.
ghost use Rattle.worker_pairing.specs.Cases.{CountsOfFew, EventsOfTwo, FlushesNothing, InitialIsExempt, LeavesTheSecond, MarksOfCareful, NamesNone, PairsOfTwo, RanksOfTwo, RingHasNone, WaitsForItself};
ghost use Rattle.worker_pairing.specs.FaultCases.{ConditionComesFirst, FailureIsOutside, NamesItself, NoPlanInRing, PairComesFirst, PairsByPeers, PeerComesFirst, PlansOneMessage, ReceivesTooOften, ReturnsBeforeReceive, ReturnsBeforeSend, SendsInBranch, SendsNil, TooManyWorkers, WaitsInitially};

use type_model::Types;

/// What the definitions come to on small functions, as it was reasoned out by hand.
pub fn definitions_come_to_cases()
    ensures events_of_two { EventsOfTwo }
    ensures pairs_of_two { PairsOfTwo }
    ensures ranks_of_two { RanksOfTwo }
    ensures leaves_the_second { LeavesTheSecond }
    ensures counts_of_few { CountsOfFew }
    ensures names_none { NamesNone }
    ensures marks_of_careful { MarksOfCareful }
    ensures initial_is_exempt { InitialIsExempt }
    ensures ring_has_none { RingHasNone }
    ensures flushes_nothing { FlushesNothing }
    ensures waits_for_itself { WaitsForItself }
{}

/// Which fault comes first in small functions, at which place and with what it shows, and which plan one has, as it was reasoned
/// out by hand.
pub fn faults_come_to_cases<T: Types>()
    ensures too_many_workers { TooManyWorkers T.passes }
    ensures names_itself { NamesItself T.passes }
    ensures waits_initially { WaitsInitially T.passes }
    ensures peer_comes_first { PeerComesFirst T.passes }
    ensures sends_in_branch { SendsInBranch T.passes }
    ensures condition_comes_first { ConditionComesFirst T.passes }
    ensures receives_too_often { ReceivesTooOften T.passes }
    ensures pairs_by_peers { PairsByPeers T.passes }
    ensures pair_comes_first { PairComesFirst T.passes }
    ensures returns_before_send { ReturnsBeforeSend T.passes }
    ensures returns_before_receive { ReturnsBeforeReceive T.passes }
    ensures sends_nil { SendsNil T.passes }
    ensures failure_is_outside { FailureIsOutside T.passes }
    ensures plans_one_message { PlansOneMessage T.passes }
    ensures no_plan_in_ring { NoPlanInRing T.passes }
{}
