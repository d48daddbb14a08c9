// What is said on standard error.
use paint::Reply;
use std::fmt;
use words::Refusal;

// A refusal's number and its message.
#[derive(Clone, Copy)]
struct Refused(Refusal);

impl fmt::Display for Refused {
    fn fmt<W: fmt::Write>(&self, f: &mut fmt::Formatter<W>) -> fmt::Result {
        let refusal = self.0;
        write!(f, "refused {}: {refusal}", refusal.number())
    }
}

// Why there is no picture, or a part of one.
#[derive(Clone, Copy)]
pub enum Failure {
    Usage,
    FontUnread,
    FontTooLong,
    FontRefused(Refusal),
    PanelRefused(Refusal),
    Unread,
    Unwritten,
}

impl fmt::Display for Failure {
    fn fmt<W: fmt::Write>(&self, f: &mut fmt::Formatter<W>) -> fmt::Result {
        match self {
            Failure::Usage => f.write_str("usage: preview [--counts] FONT R H W"),
            Failure::FontUnread => f.write_str("font: cannot be read"),
            Failure::FontTooLong => f.write_str("font: too long"),
            Failure::FontRefused(refusal) => write!(f, "font: {}", Refused(*refusal)),
            Failure::PanelRefused(refusal) => write!(f, "panel: {}", Refused(*refusal)),
            Failure::Unread => f.write_str("read failed"),
            Failure::Unwritten => f.write_str("write failed"),
        }
    }
}

// Says a line. Where standard error cannot be written either, there is nowhere left to say so.
pub fn say(rt: &impl Eprint, line: impl fmt::Display + Drop) {
    let _ = rt.eprintln(line);
}

// What there is to say of the label of a line.
pub fn say_reply(rt: &impl Eprint, number: u64, reply: Reply) {
    match reply {
        Ok(finish) => {
            let substitutes = finish.substitutes;
            if substitutes != 0 {
                say(
                    rt,
                    format_args!("line {number}: codes shown as the dummy: {substitutes}"),
                );
            }
        }
        Err(refusal) => say(rt, format_args!("line {number}: {}", Refused(refusal))),
    }
}
