// A record and a survey with nothing in them.
ghost use Rattle.std.specs.Prelude.{◌≡◌};
ghost use Rattle.member.specs.Blank.{blank_member, blank_survey};

use crate::record::{FIELDS, MOST_MEMBERS, Member, Survey};

pub fn blank_member() -> Member
    ensures { result ≡ blank_member }
{
    Member {
        fields: [0; FIELDS],
    }
}

// No members.
pub fn blank_survey() -> Survey
    ensures { result ≡ blank_survey }
{
    Survey {
        count: 0,
        members: [blank_member(); MOST_MEMBERS],
    }
}
