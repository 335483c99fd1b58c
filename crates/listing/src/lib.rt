// The thin writer of a lent list of judgements: the one function that writes such a list. What it writes is worked out elsewhere.
#![tactic(auto)]

ghost use Rattle.std.specs.Prelude.{◌≡◌, ◌++◌, ◌≤◌, length, take, drop};

use rating::judging::Judgement;

// Writes the answers into the list; entries beyond are kept.
pub fn put_all(list: &mut [Judgement], answers: &[Judgement])
    requires { length answers.now ≤ length list.old }
    ensures { list.new ≡ answers.now ++ drop (length answers.now) list.old }
{
    list[..answers.len()].copy_from_slice(answers);
}
