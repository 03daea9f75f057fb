// Laws of the search. They compute nothing.
ghost use Rattle.region_search.specs.Search.{CutsKeepSearch, EndsSettled};
ghost use Rattle.region_search.specs.Settled.{EmptyHoldsNone, NothingWaitsSettles};

/// Where nothing waits the sets are settled, or one of them is empty, and then no runs lie in what the search began with.
pub fn settled_sets()
    ensures settles { NothingWaitsSettles }
    ensures ends { EndsSettled }
    ensures empty { EmptyHoldsNone }
{}

/// A step by the rules at one net of a frame keeps the search, where all who look again are woken.
pub fn cuts_keep_search()
    ensures { CutsKeepSearch }
{}
