ghost use Rattle.std.specs.Prelude.{◌≡◌};
ghost use Rattle.sheet.specs.Contents.{reading_of};

use super::Sheet;
use crate::stage::Stage;

impl Sheet {
    // Combined shear, design shear and force of a storey, from 1, where forces stand.
    pub fn reading(&self, storey: u8) -> Option<(u64, u64, i64)>
        ensures { result ≡ reading_of self.now storey }
    {
        if matches!(self.stage, Stage::Draft) {
            return None;
        }
        let place = (storey as usize).checked_sub(1)?;
        let read = self.storeys[..self.table.count].get(place)?;
        Some((read.combined, read.design, read.force))
    }
}
