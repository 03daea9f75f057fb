// A law over the rows that are looked at.
ghost use Rattle.row_audit.specs.Laws.{EachFirstIsEach};

/// Where N is 1, an audit of each N-th row looks at all of them.
pub fn each_first_is_each()
    ensures { EachFirstIsEach }
{}
