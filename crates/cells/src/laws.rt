// The laws of the meaning, as a promise.
ghost use Rattle.cells.specs.Laws.{Laws};

/// What was put reads back and a removal undoes it; a put counts one more, a removal one less.
pub fn a_put_counts_one_more_and_a_removal_one_less()
    ensures { Laws }
{}
