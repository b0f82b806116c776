//! The Close.
ghost use Rattle.std.specs.Prelude.{◌≡◌, ◌∷◌, false, IfOk};
ghost use Rattle.upi_words.specs.Prelude.{Call, Entry, History, Legal, is_closed};
ghost use Rattle.core_shards.specs.Steps.{CanClose};
ghost use Rattle.core_shards.specs.Tables.{StandsAll};

use crate::money::left;
use crate::tables::CoreShards;
use upi_base::{NoMemory, Sent};

impl CoreShards {
    /// Plans a Close: the reversals that it makes arrive. It takes all memory of the change, and
    /// changes nothing but room.
    pub fn plan_close(&mut self) -> Result<Vec<Sent>, NoMemory>
        ensures can { IfOk result (λ v. (h : History) → StandsAll h self.old → is_closed h ≡ false → CanClose self.new v.items) }
        ensures lines { self.new.lines ≡ self.old.lines }
        ensures same { (h : History) → StandsAll h self.old → StandsAll h self.new }
    {
        let returns = self.txns.at_close(&self.dir)?;
        self.banks.reserve(returns.as_slice().len())?;
        Ok(returns)
    }

    /// Commits a Close that was planned here. It takes no memory, and always succeeds.
    pub fn commit_close(&mut self, returns: Vec<Sent>)
        requires { CanClose self.old returns.items }
        ensures lines { self.new.lines ≡ self.old.lines }
        ensures stands { (h : History) (e : Entry) → StandsAll h self.old → is_closed h ≡ false → e.call ≡ Call.Close → Legal self.old.lines (e ∷ h) → StandsAll (e ∷ h) self.new }
    {
        self.banks.arrive_all(returns);
        self.closed = true;
        self.flight = left(self.dir.setup().lines.items(), &self.banks);
    }
}
