//! Lines about a profile: whether an entry makes one, what it shows, and the bytes of its operations.

use crate::entries::add_profile_fault;
use crate::operations::read_op;
use crate::subjects::{Subjects, keep, ready};
use crate::terminals::add_size;
use check_harness::answers::{add_any, add_count, add_flag, add_number, add_text, add_word};
use check_harness::troubles::Trouble;
use check_harness::words::CallLine;
use scr_term::{Profile, ProfileFault};

/// The lines `profile R C`, `admit` and `admit R C`, which make a profile, and those that say what it tells. Tells
/// whether a line is one of them.
pub fn answer_of_profile(
    subjects: &mut Subjects,
    line: &mut CallLine<'_>,
) -> Result<bool, Trouble> {
    let made = match line.name {
        "profile" => Profile::ecma48(line.alloc, line.words.size()?),
        "admit" => admit(subjects, line)?,
        _ => match &subjects.profile {
            Some(profile) => return answer_of_made(profile, line),
            None => return Ok(false),
        },
    };
    match made {
        Ok(made) => keep(made, &mut subjects.profile, &mut line.got),
        Err(fault) => add_profile_fault(fault, &mut line.got),
    }
    Ok(true)
}

// The profile of an entry, of its own size or of the one that a line has.
fn admit(
    subjects: &Subjects,
    line: &mut CallLine<'_>,
) -> Result<Result<Profile, ProfileFault>, Trouble> {
    let size = if line.words.is_at_end() {
        None
    } else {
        Some(line.words.size()?)
    };
    let entry = ready(&subjects.entry, "no entry")?;
    Ok(Profile::admit(line.alloc, entry, size))
}

// The lines `profile_size`, `shows`, `shows_colours`, `longest`, `has OP`, `cost OP` and `render OP`, which has `none`
// where the terminal has no such operation.
fn answer_of_made(profile: &Profile, line: &mut CallLine<'_>) -> Result<bool, Trouble> {
    let (words, got) = (&mut line.words, &mut line.got);
    match line.name {
        "profile_size" => add_size(profile.size(), got),
        "shows" => add_number(i64::from(profile.shows().0), got),
        "shows_colours" => add_flag(profile.colours(), got),
        "longest" => add_count(profile.longest() as u64, got),
        "has" => add_flag(profile.has(read_op(words)?), got),
        "cost" => add_any(profile.cost(read_op(words)?), got, |cost, got| {
            add_count(cost as u64, got);
        }),
        "render" => {
            let op = read_op(words)?;
            if profile.has(op) {
                let mut bytes = Vec::new(line.alloc);
                profile.render(op, &mut bytes)?;
                add_text(&bytes, got);
            } else {
                add_word("none", got);
            }
        }
        _ => return Ok(false),
    }
    Ok(true)
}
