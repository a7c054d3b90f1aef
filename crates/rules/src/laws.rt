//! The laws of the rank, of the prices and of the lists of refusals. Each function does nothing: its contract is the
//! law.
ghost use Rattle.rules.specs.Laws.{RankIsOneOrder, PricesAreLawful, InputRefusalsRise};

/// The rank is one strict order of the bids under lawful prices, and falls with the count for each client.
pub fn rank_is_one_order()
    ensures { RankIsOneOrder }
{}

/// The share, the taxed and the class price are lawful, and so is a price that is one of two lawful ones.
pub fn prices_are_lawful()
    ensures { PricesAreLawful }
{}

/// The places among the tests rise along the refusals of making an offer, a taxed price or a tariff sheet, and of writing
/// into a buffer.
pub fn input_refusals_rise()
    ensures { InputRefusalsRise }
{}
