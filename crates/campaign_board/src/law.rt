// What a board keeps, in the words of the definition of a result file.
ghost use Rattle.campaign_board.specs.AsResult.{BoardsAreResults};

/// The law that a board's rows are the result rows of their batches and planes, and its file the result text: its sums, which
/// grow row by row, are those that the definition takes from scratch.
pub fn boards_are_results()
    ensures { BoardsAreResults }
{}
