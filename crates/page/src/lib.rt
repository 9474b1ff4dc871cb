// What the port page says of a participant as it stands, without the line's end. Beside it the line itself.
#![tactic(auto)]

ghost use Rattle.std.specs.Prelude.{◌≡◌};
ghost use Rattle.page.specs.Text.{line_of, said};
ghost use Rattle.page.specs.Status.{server_text, key_text, status_text};

use crate::line::Line;
use participant::{Participant, Slot};
use table_election::Server;

pub mod line;

impl Line {
    #[tactic(auto, unfolding(crate::specs::Status::server_text))]
    fn server(&mut self, s: Server)
        ensures { self.new ≡ said self.old (server_text s) }
    {
        match s {
            Server::Nobody => self.words(b"none"),
            Server::Ourselves => self.words(b"self"),
            Server::Elected(m) => self.mi(m),
        }
    }

    #[tactic(auto, unfolding(crate::specs::Status::key_text))]
    fn key(&mut self, latest: &Slot)
        ensures { self.new ≡ said self.old (key_text latest.now.held latest.now.key.kn) }
    {
        if latest.held {
            self.number(latest.key.kn as u64)
        } else {
            self.words(b"none")
        }
    }
}

pub fn status(p: Participant) -> Line
    ensures { result ≡ line_of (status_text p) }
{
    let mut line = Line::new();
    line.words(b"sent ");
    line.number(p.mn as u64);
    line.words(b" live ");
    line.number(table_counts::live_count(&p.table) as u64);
    line.words(b" potential ");
    line.number(table_counts::potential_count(&p.table) as u64);
    line.words(b" server ");
    line.server(call_standing::server(&p));
    line.words(b" key ");
    line.key(&p.latest);
    line
}
