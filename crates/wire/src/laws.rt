// Reading and writing undo each other, for every kind of field and for what is put together of such fields.
ghost use Rattle.wire.specs.Undone.{FieldsUndone};

// Holds nothing and does nothing: its contract is the law.
pub fn fields_undone()
    ensures { FieldsUndone }
{}
