//! That each row of a store is printed.
ghost use Rattle.store_dumps.specs.Dump.{PrintsEachRow};

/// What a snapshot of a durable state lists is rows, and a dump has a line for each.
pub fn whole()
    ensures rows { PrintsEachRow }
{}
