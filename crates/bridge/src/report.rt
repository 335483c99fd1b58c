// The lines that the program prints, one space between fields.
use member::record::MOST_MEMBERS;
use session::{After, Session};
use std::io;

// The members' lines, from place 1 to the first place that there is not.
fn print_members(rt: &impl Print, session: Session) -> io::Result<()> {
    for place in 1..=MOST_MEMBERS as u64 {
        match session.rate(place).answer {
            Ok(r) => println!(rt; "{place} {} {} {}", r.permitted.0, r.load.0, r.verdict)?,
            Err(_) => break,
        }
    }
    Ok(())
}

// The bridge's line. A refusal is not to be had here: both files are loaded and the list is long enough.
fn print_bridge(rt: &impl Print, session: Session) -> io::Result<()> {
    let mut list = [0u64; 2 * MOST_MEMBERS];
    match session.judge(&mut list).answer {
        Ok(j) => println!(rt; "bridge {} {} {}", j.figure.0, j.governing, j.verdict),
        Err(refusal) => println!(rt; "{refusal}"),
    }
}

// What is printed of the input that was loaded.
pub fn print_report(rt: &impl Print, after: After<()>) -> io::Result<()> {
    match after.answer {
        Ok(()) => {
            print_members(rt, after.session)?;
            print_bridge(rt, after.session)
        }
        Err(refusal) => println!(rt; "{refusal}"),
    }
}
