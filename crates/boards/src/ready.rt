// Keys and label ready for use: what opening a board checks, and sealing and opening the row of a slot.
ghost use Rattle.std.specs.Prelude.{◌≡◌, ◌<◌};
ghost use Rattle.base.specs.Bytes.{AllBytes};
ghost use Rattle.devices.specs.Limits.{most_slots};
ghost use Rattle.boards.specs.Kinds.{RowOf};
ghost use Rattle.boards.specs.Modes.{mode_kind};
ghost use Rattle.boards.specs.Readiness.{Prepared, sealed_by, opened_by};

use crate::label::Label;
use base::Refusal;
use ciphers::BlockCipher;
use mode::Keys;

// Keys and a label that opening a board has checked. Only `prepare` makes them.
#[derive(Drop)]
pub struct Ready<C: BlockCipher> {
    keys: Keys<C>,
    label: Label,
}

impl<C: BlockCipher> Ready<C> {
    // Checks what a board is to be opened with: the bundle, or WrongKeyLength, then the label, or ContextTooLong.
    pub fn prepare(bundle: &[u8], label: &[u8]) -> Result<Ready<C>, Refusal>
    where
        C: Drop,
        ensures { Prepared C.BlockCipher bundle.now label.now result }
    {
        let keys = Keys::<C>::from_bundle(bundle)?;
        let label = Label::try_from(label)?;
        Ok(Ready { keys, label })
    }

    // Seals a row of the slot where it lies; opening it gives it back. Apart from `open_row`, since each states something else.
    // That there is such a slot no type of the number alone can say, here and below.
    pub(crate) fn seal_row(&self, slot: usize, row: &mut [u8])
        requires slot { slot < most_slots }
        requires row { RowOf (mode_kind C.BlockCipher) row.old }
        // asked above, and said again, since a caller keeps of a call only what it ensures
        ensures seen { AllBytes row.old }
        ensures after { row.new ≡ sealed_by C.BlockCipher self.now slot row.old }
        ensures back { opened_by C.BlockCipher self.now slot row.new ≡ row.old }
    {
        let nonce = self.label.nonce(slot);
        let _ = self.keys.seal(&nonce, &[], row);
    }

    // Opens what the slot holds where it lies.
    pub(crate) fn open_row(&self, slot: usize, row: &mut [u8])
        requires slot { slot < most_slots }
        requires row { RowOf (mode_kind C.BlockCipher) row.old }
        ensures after { row.new ≡ opened_by C.BlockCipher self.now slot row.old }
        ensures bytes { AllBytes row.new }
    {
        let nonce = self.label.nonce(slot);
        let _ = self.keys.open(&nonce, &[], row);
    }
}
