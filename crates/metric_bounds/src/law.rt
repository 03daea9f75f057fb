// Laws of the bounds, for contracts. They compute nothing.
ghost use Rattle.metric_bounds.specs.Laws.{BoundsEndExact, BoundsHold, BoundsNarrow, LimitStands, TargetsStand};

/// Whatever planes the missing batches have, each metric of the whole plan lies within its bounds, and some planes reach each
/// end.
pub fn bounds_hold()
    ensures { BoundsHold }
{}

/// As rows are added the bounds only narrow, and with all batches kept both ends are the metric.
pub fn bounds_narrow()
    ensures narrow { BoundsNarrow }
    ensures exact { BoundsEndExact }
{}

/// A target that is met or missed stays so, whatever the missing batches give, and one that is open may end either way: those of
/// percentages, and the limit of the term.
pub fn targets_stand()
    ensures percentages { TargetsStand }
    ensures limit { LimitStands }
{}
