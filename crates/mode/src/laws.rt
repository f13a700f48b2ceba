// The laws of the mode, for every cipher.
ghost use Rattle.std.specs.Prelude.{◌≡◌};
ghost use Rattle.mode.specs.Laws.{ModeLaws};

// The laws are what it promises; its answer says nothing more.
pub fn mode_laws() -> usize
    ensures answer { result ≡ 0 }
    ensures laws { ModeLaws }
{
    0
}
