// Laws of a dump, for contracts and for readers. They compute nothing.
ghost use Rattle.wave_dump.specs.Laws.{CodesAreApart, PrintsTraces};

/// The law of a dump: the value that is printed last of a net, at or before a cycle, is its trace in the run of the scope.
pub fn prints_traces()
    ensures { PrintsTraces }
{}

/// The law that no two variables have one identifier code.
pub fn codes_are_apart()
    ensures { CodesAreApart }
{}
