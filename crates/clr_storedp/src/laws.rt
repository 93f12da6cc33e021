// What a table gives, as the contract of a function that does nothing.
ghost use Rattle.clr_storedp.specs.Laws.{TableReads};

/// A store's table can be read at each live prefix and each stock that the store may have: it gives the store's value after the
/// prefix and, where a week is to come, its choice.
pub fn table_reads()
    ensures { TableReads }
{}
