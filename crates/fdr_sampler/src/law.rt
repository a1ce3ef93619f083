//! What of the order of bus words a recording doesn't show.

ghost use Rattle.std.specs.Prelude.{◌≡◌, List};
ghost use Rattle.fdr_bus.specs.declared.BusRecord.{BusRecord};
ghost use Rattle.fdr_table.specs.Rows.{TableRows};
ghost use Rattle.fdr_sampler.specs.Exchange.{AreExchanged};
ghost use Rattle.fdr_sampler.specs.Stream.{stream_of};

/// A law, and no work: two neighbouring bus words that came at one time, on different buses or with different labels, make
/// the same recording in either order. It holds of every table and of all records before and after them.
pub fn either_order()
    ensures { (t : TableRows) (records others : List BusRecord) → AreExchanged records others
        → stream_of t records ≡ stream_of t others }
{}
