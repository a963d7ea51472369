// Silence in the place of a response: the wait ends, and nothing else changes.
ghost use Rattle.std.specs.Prelude.{◌≡◌};
ghost use Rattle.frame.specs.Answer.{refusal_in};
ghost use Rattle.side.specs.Given.{given};
ghost use Rattle.master.specs.Response.{silence_of, silence_refusal};

use crate::Master;
use frame::Refusal;

impl Master {
    // No response came: 30, 16.
    #[tactic(auto, unfolding(crate::specs::Response::silence_of))]
    pub fn silence(&mut self) -> Result<(), Refusal>
        ensures { given result self.new ≡ silence_of self.old }
    {
        self.silence_refusal()?;
        self.waiting = false;
        Ok(())
    }

    #[tactic(auto, unfolding(crate::specs::Response::silence_refusal))]
    pub(crate) fn silence_refusal(&self) -> Result<(), Refusal>
        ensures { refusal_in result ≡ silence_refusal self.now }
    {
        self.wrong()?;
        if !self.waiting {
            return Err(Refusal::NoOrderWaits);
        }
        Ok(())
    }
}
