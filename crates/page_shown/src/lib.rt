// The line of the port page for the octets of an image: what `portshow` prints.
#![tactic(auto)]

ghost use Rattle.std.specs.Prelude.{◌≡◌};
ghost use Rattle.page_shown.specs.Show.{shown_of};

use page::line;
use page::line::Line;

#[tactic(auto, unfolding(crate::specs::Show::shown_of))]
pub fn show(image: &[u8]) -> Line
    ensures { result ≡ shown_of image.now }
{
    let read = image_reading::read(image);
    match read.answer {
        Ok(()) => line::ended(page::status(read.participant)),
        Err(why) => line::refused(why.number()),
    }
}
