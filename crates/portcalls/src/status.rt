// The answer to "ask": the words of the port page's line, each by its question, then what is due.
use crate::print::Member;
use participant::Participant;
use std::fmt;
use std::fmt::Write;
use table_election::Server;

#[derive(Clone, Copy)]
pub(crate) struct Status<'a>(pub(crate) &'a Participant);

impl fmt::Display for Status<'_> {
    fn fmt<W: fmt::Write>(&self, f: &mut fmt::Formatter<W>) -> fmt::Result {
        let p = *self.0;
        // each entry is asked by its identifier
        let live = p
            .table
            .held()
            .iter()
            .filter(|e| call_questions::is_live(p, e.mi))
            .count();
        let potential = p
            .table
            .held()
            .iter()
            .filter(|e| call_questions::is_potential(p, e.mi))
            .count();
        write!(f, "sent {} live {live} potential {potential} server ", p.mn)?;
        match call_questions::server(p) {
            Server::Nobody => f.write_str("none")?,
            Server::Ourselves => f.write_str("self")?,
            Server::Elected(m) => Member(m).fmt(f)?,
        }
        if p.latest.held {
            write!(f, " key {}", p.latest.key.kn)?;
        } else {
            f.write_str(" key none")?;
        }
        let hello = due(call_questions::hello_due(p));
        let fresh = due(call_questions::fresh_due(p));
        write!(f, " hello {hello} fresh {fresh}")
    }
}

fn due(x: bool) -> &'static str {
    if x { "due" } else { "no" }
}
