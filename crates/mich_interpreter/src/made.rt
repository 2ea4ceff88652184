// What MAP goes over, and what it has made of it.
use mich_base::Rows;
use mich_term::{Datum, Table, Value};

// A list: the values that are left, the next one last, and the results.
#[derive(Debug, Drop)]
pub(crate) struct OverList {
    pub(crate) left: Rows<Value>,
    pub(crate) made: Rows<Value>,
}

// A map, likewise.
#[derive(Debug, Drop)]
pub(crate) struct OverTable {
    pub(crate) left: Rows<(Datum, Value)>,
    pub(crate) made: Table<Value>,
}

// While a result is made: that of a value of a list, of the entry at a key, or of what an option holds.
#[derive(Debug, Drop)]
pub(crate) enum Making {
    Value(OverList),
    Entry(OverTable, Datum),
    Part,
}
