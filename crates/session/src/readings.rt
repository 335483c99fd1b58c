// Rot between two readings: the bounds and the verdict of two surveys, of which neither is loaded.
ghost use Rattle.std.specs.Prelude.{◌≡◌};
ghost use Rattle.session.specs.Answers.{between_judged};
ghost use Rattle.session.specs.Readings.{judge_between, bounds_list};

use crate::{After, Session};
use between::{Between, judge_between};

impl Session {
    // Judge two surveys of one bridge with the loaded vehicle, and fill the list with each member's lowest and highest permitted load.
    pub fn judge_between(self, first: &[u8], second: &[u8], list: &mut [u64]) -> After<Between>
        ensures is { between_judged result ≡ judge_between self first.now second.now list.old }
        ensures list { list.new ≡ bounds_list self first.now second.now list.old }
    {
        let answer = judge_between(self.vehicle, first, second, list);
        After {
            session: self,
            answer,
        }
    }
}
