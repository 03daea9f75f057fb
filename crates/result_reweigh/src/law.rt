// The laws of rows by other rates.
ghost use Rattle.result_reweigh.specs.Laws.{ReweighsAreLawful};

/// The laws of rows by other failure rates: planes hang on no rate, so the rows of a campaign, true or not, whole or not, are by the
/// weights of other rates those of the campaign with these rates; and by its own rates they come back. They stand over the definitions
/// alone.
pub fn reweighs_are_lawful()
    ensures { ReweighsAreLawful }
{}
