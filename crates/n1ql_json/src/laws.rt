//! The law of reading and writing, for whoever rests on it: it is the contract of a function that does nothing.

ghost use Rattle.std.specs.Prelude.{◌≡◌, true};
ghost use Rattle.n1ql_value.specs.declared.datum.Datum.{Datum};
ghost use Rattle.n1ql_json.specs.Valid.{is_value};
ghost use Rattle.n1ql_json.specs.ReadBack.{IsReadBack};

/// The text of each value that a program can hold is read back as the value.
pub fn what_is_written_is_read_back()
    ensures { (d : Datum) → is_value d ≡ true → IsReadBack d }
{}
