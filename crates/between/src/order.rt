// Whether two surveys are in order: field by field, what wears is as great or greater in the second, and all else is equal.
ghost use Rattle.std.specs.Prelude.{◌≡◌, ◌≤◌, ◌<◌};
ghost use Rattle.member.specs.Fields.{FIELDS, MOST_MEMBERS};
ghost use Rattle.rating.specs.Surveyed.{member_at};
ghost use Rattle.between.specs.Order.{may_grow, field_ordered, ordered, order_answer};

use files::Refusal;
use files::fault::Fault;
use member::record::{CLOSE_STRINGER, CODE, DEAD_LOAD, FIELDS, KIND, Member, Survey};
use member::wear::{is_loss, is_rot};

// Stays: kind and code are numbers here and not enums, since `order_answer` takes surveys with any numbers, and `may_grow` answers for each.

// The number in the field may be greater in the second survey. Of closely spaced stringers only the dead load may: their rot changes the
// spread.
#[tactic(auto, using(crate::proofs::Orders::dead_grows, crate::proofs::Orders::kept_grows, crate::proofs::Orders::worn_grows))]
fn may_grow(kind: u16, code: u16, f: usize) -> bool
    ensures { result ≡ may_grow kind code f }
{
    f == DEAD_LOAD || kind != CLOSE_STRINGER && (is_rot(code, f) || is_loss(code, f))
}

// A field of the two records.
fn is_field_ordered(m: Member, n: Member, f: usize) -> bool
    requires { f < FIELDS }
    ensures { result ≡ field_ordered m n f }
{
    let (x, y) = (m.fields[f], n.fields[f]);
    if may_grow(m.fields[KIND], m.fields[CODE], f) {
        x <= y
    } else {
        x == y
    }
}

// Every field of the two records.
fn is_ordered(m: Member, n: Member) -> bool
    ensures { result ≡ ordered m n }
{
    (0..FIELDS).all(|f| is_field_ordered(m, n, f))
}

// 15 at place 0 for another count, else at the first record that is not in order.
pub fn order_answer(first: Survey, second: Survey) -> Result<(), Refusal>
    requires { first.count ≤ MOST_MEMBERS }
    ensures { result ≡ order_answer first.count second.count (member_at first.members) (member_at second.members) }
{
    if first.count != second.count {
        return Err(Fault::Order.at(0));
    }
    for i in 0..first.count {
        if !is_ordered(first.members[i], second.members[i]) {
            return Err(Fault::Order.at(i as u64 + 1));
        }
    }
    Ok(())
}
