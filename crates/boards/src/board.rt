// A board: keys and label over a device, and itself a device whose rows are the opened ones.
ghost use Rattle.std.specs.Prelude.{◌≡◌};
ghost use Rattle.boards.specs.declared.ready.Ready.{Ready as ReadyKeys};
ghost use Rattle.boards.specs.Readiness.{board_rows, opened_by};
ghost use Rattle.boards.specs.Soundness.{sound_through};
ghost use Rattle.boards.specs.Through.{through};

use crate::ready::Ready;
use base::Refusal;
use ciphers::BlockCipher;
use devices::SlotDevice;
use mode::mode_laws;

// An open board holds its device until it is shut.
pub struct Board<C: BlockCipher, D> {
    ready: Ready<C>,
    device: D,
}

impl<C: BlockCipher, D> Board<C, D> {
    // Opens a board over the device, with what `prepare` answered; this cannot be declined.
    pub fn open(ready: Ready<C>, device: D) -> Board<C, D>
    where
        D: SlotDevice,
        ensures made { (result.ready ≡ ready) × (result.device ≡ device) }
        ensures rows { board_rows C.BlockCipher result.ready (D.SlotDevice.held result.device) ≡ through (opened_by C.BlockCipher ready) (D.SlotDevice.held device) }
    {
        // brings the laws of the mode, by which what is opened keeps its length
        mode_laws();
        Board { ready, device }
    }

    // Gives the device back; the keys are gone.
    pub fn shut(self) -> D
    where
        C: Drop,
        ensures { result ≡ self.device }
    {
        let Board { ready, device } = self;
        drop(ready);
        device
    }
}

impl<C: BlockCipher, D: SlotDevice> SlotDevice for Board<C, D> {
    ghost Fixed = { ReadyKeys C × D.SlotDevice.Fixed };

    ghost fixed = { λ b. (b.ready, D.SlotDevice.fixed b.device) };

    ghost State = { ReadyKeys C × D.SlotDevice.State };

    ghost state = { λ b. (b.ready, D.SlotDevice.state b.device) };

    ghost shape = { λ b. D.SlotDevice.shape b.device };

    ghost held = { λ b. board_rows C.BlockCipher b.ready (D.SlotDevice.held b.device) };

    ghost sound = { λ b. sound_through (D.SlotDevice.shape b.device) (D.SlotDevice.held b.device) _ (D.SlotDevice.sound b.device) };

    fn slots(&self) -> usize {
        self.device.slots()
    }

    fn longest(&self) -> usize {
        self.device.longest()
    }

    fn write(&mut self, slot: usize, row: &mut [u8]) -> Result<usize, Refusal> {
        self.device.fits(slot, row.len())?;
        self.ready.seal_row(slot, row);
        self.device.write(slot, row)
    }

    fn read(&mut self, slot: usize, buffer: &mut [u8]) -> Result<usize, Refusal> {
        let len = self.device.read(slot, buffer)?;
        self.ready.open_row(slot, &mut buffer[0..len]);
        Ok(len)
    }

    fn clear(&mut self, slot: usize) -> Result<usize, Refusal> {
        self.device.clear(slot)
    }

    fn length(&mut self, slot: usize) -> Result<usize, Refusal> {
        self.device.length(slot)
    }

    fn fits(&mut self, slot: usize, len: usize) -> Result<usize, Refusal> {
        self.device.fits(slot, len)
    }
}
