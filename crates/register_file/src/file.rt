// The lent bytes of a register file that was accepted.
ghost use Rattle.std.specs.Prelude.{◌≡◌, true, is_ok};
ghost use Rattle.std.proofs.Props.{props};
ghost use Rattle.wire.specs.Bytes.{Bytes};
ghost use Rattle.register_file.specs.File.{file_at};

#[derive(Clone, Copy)]
pub struct RegisterFile<'a> {
    pub(crate) bytes: &'a [u8],
    ghost lent: { Bytes bytes.now } by { Prim.hlevel props },
    ghost accepted: { is_ok (file_at bytes.now) ≡ true },
}
