// Two readings of one record: whether they may be joined, and the record that they give.
ghost use Rattle.std.specs.Prelude.{◌≡◌, ◌<◌};
ghost use Rattle.member.specs.Fields.{FIELDS};
ghost use Rattle.files.specs.Fault.{fault_of};
ghost use Rattle.join.specs.Join.{rule_at, field_agrees, field_near, join_fault, joined_field, joined_member};

use crate::rule::{Rule, rule_of};
use files::fault::Fault;
use member::record::{CODE, FIELDS, KIND, Member};

// The rule of a field, by the record's own kind and code.
fn rule_at(m: Member, f: usize) -> Rule
    ensures { result ≡ rule_at m f }
{
    rule_of(m.fields[KIND], m.fields[CODE], f)
}

// Stays: two functions, since each has a definition of its own, and `join_fault` asks the first of every field before the second.
fn field_agrees(m: Member, n: Member, f: usize) -> bool
    requires { f < FIELDS }
    ensures { result ≡ field_agrees m n f }
{
    rule_at(m, f).agrees(m.fields[f], n.fields[f])
}

fn field_near(m: Member, n: Member, f: usize) -> bool
    requires { f < FIELDS }
    ensures { result ≡ field_near m n f }
{
    rule_at(m, f).near(m.fields[f], n.fields[f])
}

// 18 where fields that must agree do not, then 19 where two are too far apart.
pub fn join_fault(m: Member, n: Member) -> Result<(), Fault>
    ensures { fault_of result ≡ join_fault m n }
{
    if !(0..FIELDS).all(|f| field_agrees(m, n, f)) {
        return Err(Fault::Disagreement);
    }
    if !(0..FIELDS).all(|f| field_near(m, n, f)) {
        return Err(Fault::Apart);
    }
    Ok(())
}

// The record that two readings of it give, field by field.
pub fn joined_member(m: Member, n: Member) -> Member
    ensures { result ≡ joined_member m n }
{
    let mut fields = [0u16; FIELDS];
    for f in 0..FIELDS {
        fields[f] = rule_at(m, f).joined(m.fields[f], n.fields[f]);
    }
    Member { fields }
}
