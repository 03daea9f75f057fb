// What was written reads back.
ghost use Rattle.result_file.specs.KeptRows.{ReadsBack};

/// The law that a result file of distinct batches, with any planes whose unused lanes are 0, is read back whole. It stands
/// over the definitions alone.
pub fn written_reads_back()
    ensures { ReadsBack }
{}
