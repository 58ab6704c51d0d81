ghost use Rattle.lw_s4.specs.Laws.{HistoryServes};

/// Each π of a label's history is served, so that it asks for no step: by a link to the label's own world, or by one to
/// an earlier world of the path.
pub fn history_serves()
    ensures { HistoryServes }
{}
