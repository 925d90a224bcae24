ghost use Rattle.oi_nodedb_laws.specs.Laws.{DatabaseStays, DeleteStops, DeleteTouches, LoadedStays, StoreFollows, SureWithoutFaults, UpdateStops, UpdateTouches, ValueFollows};

/// Laws of the database over calls in a row, whatever the store held before and whatever they answered. Each path whose record was
/// made or changed last has the text of that record in the store, and the value has that very record; a path whose record was
/// taken away last has none; every other path is as before. A call that stopped in the middle changed the records before the
/// one at which it stopped, in the store and in the value. Where the store failed at a path, the store has there what the call
/// was to leave or what was there before it, and the value what was there before it; there is no such path where no call told a
/// fault of the store, and then the records of the value are those that a load of the store gives, if they were so before. The
/// function does nothing.
pub fn stores_follow_courses()
    ensures store { StoreFollows }
    ensures value { ValueFollows }
    ensures sure { SureWithoutFaults }
    ensures stays { DatabaseStays }
    ensures loaded { LoadedStays }
{}

/// Laws of single calls, for those of calls in a row. At the path of each record an update or a deletion changes what it means
/// and nothing else. Where the store or memory stopped it in the middle, each record that it means before that one is changed,
/// in the store and in the value. The function does nothing.
pub fn calls_change_what_they_mean()
    ensures update { UpdateTouches }
    ensures delete { DeleteTouches }
    ensures stopped_update { UpdateStops }
    ensures stopped_delete { DeleteStops }
{}
