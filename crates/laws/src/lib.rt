//! What a broker is, what it guarantees over whole histories, and why. The definitions stand in specs/ and the proofs in
//! proofs/. Each function here does nothing: its contract is a law.
#![tactic(auto)]

ghost use Rattle.laws.specs.Laws.{DivisionIsUnique, HistoriesKeepGuarantees, FramesLieOnce, OneAnswer, EveryCallIsAnswered, ListsRise, RestIsReached, LowestPayerIsFound, BrokersStayInRange, HoldingsAddUp, AsksAreCounted, PassagesFollowAsks};
ghost use Rattle.laws.specs.Cases.{WorkedExamples};

/// No two different divisions of the same frames among the same clients are settled.
pub fn settled_division_is_unique()
    ensures { DivisionIsUnique }
{}

/// Every history under a lawful price keeps the three guarantees: accepted asks are bounded, there is one resting place,
/// and the share price shorts no client.
pub fn every_history_keeps_the_guarantees()
    ensures { HistoriesKeepGuarantees }
{}

/// Over every history each frame of the pool lies in one stack and in no other, and no other number lies in any.
pub fn every_frame_lies_in_one_stack_once()
    ensures { FramesLieOnce }
{}

/// A call on a broker has one answer, and leaves one broker.
pub fn every_call_has_one_answer()
    ensures { OneAnswer }
{}

/// Every call on a broker that a history leads to has an answer: what is not refused is accepted.
pub fn every_call_is_answered()
    ensures { EveryCallIsAnswered }
{}

/// The places among the tests rise along the list of refusals of every call and every question, and those from the input
/// come first.
pub fn refusal_numbers_rise()
    ensures { ListsRise }
{}

/// There is one lowest payer, or none.
pub fn lowest_payer_is_found()
    ensures { LowestPayerIsFound }
{}

/// Holdings, terms, minimums, estimates, ticks and the unit stay in their ranges.
pub fn every_broker_stays_in_range()
    ensures { BrokersStayInRange }
{}

/// A client holds as many frames as slips answered its asks, less those that name it as former owner and less its
/// hand-backs, since its admission.
pub fn every_holding_adds_up()
    ensures { HoldingsAddUp }
{}

/// The count of asks is that of the accepted asks, modulo 2 ^ 64.
pub fn every_ask_is_counted()
    ensures { AsksAreCounted }
{}

/// A passage is open exactly from an accepted ask to the delivery of its slip, and its slip is that ask's.
pub fn every_passage_follows_its_ask()
    ensures { PassagesFollowAsks }
{}

/// Where nothing but asks and deliveries is accepted, accepted asks end, and once each client has asked again and every call
/// was refused, with no passage open, the broker is at rest. So every broker can be brought to rest.
pub fn rest_is_reached()
    ensures { RestIsReached }
{}

/// The worked examples of prices and settled divisions, and of what the premises of the guarantees bear, together.
pub fn worked_examples_hold()
    ensures { WorkedExamples }
{}
