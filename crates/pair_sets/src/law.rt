// Laws of the table rule. They compute nothing.
ghost use Rattle.pair_sets.specs.Tables.{TablesAreComplete, TablesAreSound};

/// What a table takes away from sets of pairs may go by the rules of stretches; and where it takes nothing, no pair may go by it.
pub fn tables_are_rules()
    ensures sound { TablesAreSound }
    ensures complete { TablesAreComplete }
{}
