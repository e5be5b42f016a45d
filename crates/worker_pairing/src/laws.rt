//! Laws of pairs and plans. These calls do nothing: their clauses are laws.
ghost use Rattle.worker_pairing.specs.Laws.{PairsUp, PlansPairUp};

use type_model::Types;

/// Where each event has its peer and none is left over, each message that is sent is received.
pub fn messages_pair_up()
    ensures { PairsUp }
{}

/// Where there is a plan messages pair up, and its ranks rise along each worker and from what an event needs.
pub fn plans_pair_up<T: Types>()
    ensures { PlansPairUp T.passes }
{}
